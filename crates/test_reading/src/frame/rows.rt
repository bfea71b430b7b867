//! Messages in hexadecimal digits, worked by hand from the layout, with what they are.

/// Whole messages, and behind the bar what another implementation shows of their fields: each name with its
/// value, and no other field. `interop/check-dissector` reads these lines too.
pub(crate) const WHOLE: [&str; 24] = [
    "00 00 000A 0A 00 | function=0x00,0x0a control=0x00 msgid=10 result=0x00",
    "00 00 0009 0D 01 00 0007 008F | function=0x00,0x0d control=0x00 msgid=9 result=0x01 header_error_marker=0x00 \
     error_class=7 error_code=143 result_data=<MISSING>",
    "00 04 0007 02000000000A 01 01 5F 0007 0091 626164 | function=0x00,0x01 control=0x04 msgid=7 \
     dest_virtual_address=02000000000a result=0x01 header_error_marker=0x5f error_class=7 error_code=145 \
     result_data=626164",
    "01 03 0001 41 C101 00 | function=0x01 control=0x03 msgid=1 dest_options=1 data_options=2 header=0x41,0xc1,0x01 \
     header_more=0,1,0 header_understand=1,1,0 header_data_present=0,0,0 header_type=0x01,0x01,0x01 npdu=00",
    "01 00 FFFF 0100 | function=0x01 control=0x00 msgid=65535 npdu=0100",
    "01 04 0002 02000000000B 0120FFFF00FF1008 | function=0x01 control=0x04 msgid=2 dest_virtual_address=02000000000b npdu=0120ffff00ff1008",
    "01 08 0002 02000000000A 0120FFFF00FF1008 | function=0x01 control=0x08 msgid=2 orig_virtual_address=02000000000a npdu=0120ffff00ff1008",
    "01 0C 0002 02000000000A FFFFFFFFFFFF 0120FFFF00FF1008 | function=0x01 control=0x0c msgid=2 \
     orig_virtual_address=02000000000a dest_virtual_address=ffffffffffff npdu=0120ffff00ff1008",
    "01 0B 0001 02000000000A FF000400FF07AA 01 A20000 41 00 | function=0x01 control=0x0b msgid=1 \
     orig_virtual_address=02000000000a dest_options=2 data_options=2 header=0xff,0x01,0xa2,0x41 header_more=1,0,1,0 \
     header_understand=1,0,0,1 header_data_present=1,0,1,0 header_type=0x1f,0x01,0x02,0x01 header_length=4,0 \
     header_data=00ff07aa,<MISSING> npdu=00",
    "02 08 0011 02000000000A | function=0x02 control=0x08 msgid=17 orig_virtual_address=02000000000a",
    "03 04 0011 02000000000A 77733A2F2F6C6F63616C686F73743A343434342F | function=0x03 control=0x04 msgid=17 \
     dest_virtual_address=02000000000a uris=77733a2f2f6c6f63616c686f73743a343434342f",
    "03 00 0012 | function=0x03 control=0x00 msgid=18 uris=<MISSING>",
    "03 00 0013 77733A2F2F61 20 77733A2F2FC3A9 | function=0x03 control=0x00 msgid=19 uris=77733a2f2f612077733a2f2fc3a9",
    "04 04 0002 02000000000A 01 00 0640 05D9 | function=0x04 control=0x04 msgid=2 dest_virtual_address=02000000000a \
     hub_conn_state=0x01 accept_conns=0x00 max_bvlc_length=1600 max_npdu_length=1497",
    "04 02 0003 01 02 01 FFFF 0001 | function=0x04 control=0x02 msgid=3 dest_options=1 header=0x01 header_more=0 \
     header_understand=0 header_data_present=0 header_type=0x01 hub_conn_state=0x02 accept_conns=0x01 \
     max_bvlc_length=65535 max_npdu_length=1",
    "05 0C 0013 02000000000A FFFFFFFFFFFF | function=0x05 control=0x0c msgid=19 orig_virtual_address=02000000000a dest_virtual_address=ffffffffffff",
    "06 00 0001 02000000000A AAAAAAAAAAAAAAAAAAAAAAAAAAAAAAAA 0640 05D9 | function=0x06 control=0x00 msgid=1 \
     connect_virtual_address=02000000000a connect_uuid=aaaaaaaaaaaaaaaaaaaaaaaaaaaaaaaa max_bvlc_length=1600 \
     max_npdu_length=1497",
    "07 00 0001 0200000000FF 00112233445566778899AABBCCDDEEFF 0640 05D9 | function=0x07 control=0x00 msgid=1 \
     connect_virtual_address=0200000000ff connect_uuid=00112233445566778899aabbccddeeff max_bvlc_length=1600 \
     max_npdu_length=1497",
    "08 00 0007 | function=0x08 control=0x00 msgid=7",
    "09 00 0007 | function=0x09 control=0x00 msgid=7",
    "0A 00 1234 | function=0x0a control=0x00 msgid=4660",
    "0B 02 1234 41 | function=0x0b control=0x02 msgid=4660 dest_options=1 header=0x41 header_more=0 header_understand=1 header_data_present=0 header_type=0x01",
    "0C 03 0001 620002ABCD 01 0104 05 | function=0x0c control=0x03 msgid=1 dest_options=1 data_options=1 \
     header=0x62,0x01 header_more=0,0 header_understand=1,0 header_data_present=1,0 header_type=0x02,0x01 \
     header_length=2 header_data=abcd vendor_id=0x0104 proprietary_type=0x05 proprietary_data=<MISSING>",
    "0C 00 0003 00FF 07 AABB | function=0x0c control=0x00 msgid=3 vendor_id=0x00ff proprietary_type=0x07 proprietary_data=aabb",
];
