//! The connections that haven't left, to be found by their addresses and by their devices.
#![tactic(auto)]

ghost use Rattle.std.specs.Prelude.{◌≡◌, ◌≤◌, ◌<◌, not, ◌==◌, [], length, filter, IsTrue, IfOk, vec_len, vec_capacity};
ghost use Rattle.std.specs.List.{AllByRecursion};
ghost use Rattle.bsc_octets.specs.Addresses.{same_vmac, same_device};
ghost use Rattle.bsc_desk.specs.Orders.{in_order, precedes, address_of, device_of, up_to, filed, last_of, passing, before, at_most, spelled};

use crate::hints::Hints;
use bsc_history::Connection;
use bsc_octets::{DeviceId, NoMemory, Vmac};
use std::alloc::Global;

/// The connections that haven't left, twice: in the order of their addresses, and in that of their devices.
/// Those with the same one stand in the order of joining.
#[derive(Drop)]
pub struct Directory {
    pub(crate) by_address: Vec<Connection>,
    pub(crate) by_device: Vec<Connection>,
    /// Where the holders of addresses were found last.
    pub(crate) hints: Hints,
    ghost address_order: { IsTrue (in_order (precedes address_of) by_address.items) },
    ghost device_order: { IsTrue (in_order (precedes device_of) by_device.items) },
}

/// The number that the octets of an address spell, the first octet the highest.
fn number(v: &Vmac) -> u64
    ensures value { result ≡ spelled 0 v.now.0 }
    ensures six { length v.now.0 ≡ 6 }
    ensures octets { AllByRecursion (λ x. x < 256) v.now.0 }
{
    let [a, b, c, d, e, f] = v.0;
    u64::from_be_bytes([0, 0, a, b, c, d, e, f])
}

/// Whether an address comes no later than another in their order.
fn is_at_most(v: &Vmac, w: &Vmac) -> bool
    ensures { result ≡ at_most v.now.0 w.now.0 }
{
    number(v) <= number(w)
}

/// How many of the connections have an address that is at most `v`.
fn up_to_address(list: &[Connection], v: Vmac) -> usize
    requires { IsTrue (in_order (precedes address_of) list.now) }
    ensures value { result ≡ up_to address_of v.0 list.now }
    ensures bound { result ≤ length list.now }
{
    list.partition_point(|connection| is_at_most(&connection.who.vmac, &v))
}

/// How many of the connections have a device that is at most `device`.
fn up_to_device(list: &[Connection], device: &DeviceId) -> usize
    requires { IsTrue (in_order (precedes device_of) list.now) }
    ensures value { result ≡ up_to device_of device.now.0 list.now }
    ensures bound { result ≤ length list.now }
{
    list.partition_point(|connection| connection.who.device.cmp(device).is_le())
}

/// The connection before a place.
fn one_before(list: &[Connection], place: usize) -> Option<Connection>
    ensures { result ≡ before list.now place }
{
    if place == 0 {
        None
    } else {
        list.get(place - 1).copied()
    }
}

/// The connection, if it has the address.
fn with_address(found: Option<Connection>, v: Vmac) -> Option<Connection>
    ensures { result ≡ passing (λ c. same_vmac c.who.vmac v) found }
{
    match found {
        Some(connection) => if connection.who.vmac == v {
            Some(connection)
        } else {
            None
        },
        None => None,
    }
}

/// The connection, if it has the device.
fn with_device(found: Option<Connection>, device: &DeviceId) -> Option<Connection>
    ensures { result ≡ passing (λ c. same_device c.who.device device.now) found }
{
    match found {
        Some(connection) => if connection.who.device == *device {
            Some(connection)
        } else {
            None
        },
        None => None,
    }
}

/// Files a connection by its address, where there is room.
fn file_by_address(list: &mut Vec<Connection>, connection: &Connection)
    requires order { IsTrue (in_order (precedes address_of) list.old.items) }
    requires room { vec_len list.old < vec_capacity list.old }
    ensures items { list.new.items ≡ filed address_of list.old.items connection.now }
    ensures capacity { vec_capacity list.new ≡ vec_capacity list.old }
{
    let place = up_to_address(list.as_slice(), connection.who.vmac);
    let _there_is_room = list.insert(place, *connection);
}

/// Files a connection by its device, where there is room.
fn file_by_device(list: &mut Vec<Connection>, connection: &Connection)
    requires order { IsTrue (in_order (precedes device_of) list.old.items) }
    requires room { vec_len list.old < vec_capacity list.old }
    ensures items { list.new.items ≡ filed device_of list.old.items connection.now }
    ensures capacity { vec_capacity list.new ≡ vec_capacity list.old }
{
    let place = up_to_device(list.as_slice(), &connection.who.device);
    let _there_is_room = list.insert(place, *connection);
}

/// Takes a connection out.
fn strike(list: &mut Vec<Connection>, conn: u64)
    ensures items { list.new.items ≡ filter (λ c. not (c.number == conn)) list.old.items }
    ensures capacity { vec_capacity list.new ≡ vec_capacity list.old }
{
    list.retain(|connection| connection.number != conn);
}

impl Directory {
    /// An empty directory with room for so many connections.
    pub(crate) fn make(alloc: Global, rows: usize) -> Result<Directory, NoMemory>
        ensures by_address { IfOk result (λ x. x.by_address.items ≡ []) }
        ensures by_device { IfOk result (λ x. x.by_device.items ≡ []) }
        ensures address_room { IfOk result (λ x. rows ≤ vec_capacity x.by_address) }
        ensures device_room { IfOk result (λ x. rows ≤ vec_capacity x.by_device) }
    {
        Ok(Directory {
            by_address: Vec::with_capacity(alloc, rows)?,
            by_device: Vec::with_capacity(alloc, rows)?,
            hints: Hints::make(alloc)?,
        })
    }

    /// The newest connection with the address.
    pub(crate) fn newest_at(&self, v: Vmac) -> Option<Connection>
        ensures { result ≡ last_of (λ c. same_vmac c.who.vmac v) self.now.by_address.items }
    {
        let list = self.by_address.as_slice();
        let place = up_to_address(list, v);
        with_address(one_before(list, place), v)
    }

    /// The newest connection of the device.
    pub(crate) fn newest_of(&self, device: &DeviceId) -> Option<Connection>
        ensures { result ≡ last_of (λ c. same_device c.who.device device.now) self.now.by_device.items }
    {
        let list = self.by_device.as_slice();
        let place = up_to_device(list, device);
        with_device(one_before(list, place), device)
    }

    /// Enters a connection, where there is room.
    pub(crate) fn enter(&mut self, connection: &Connection)
        requires address_room { vec_len self.old.by_address < vec_capacity self.old.by_address }
        requires device_room { vec_len self.old.by_device < vec_capacity self.old.by_device }
        ensures by_address { self.new.by_address.items ≡ filed address_of self.old.by_address.items connection.now }
        ensures by_device { self.new.by_device.items ≡ filed device_of self.old.by_device.items connection.now }
        ensures address_capacity { vec_capacity self.new.by_address ≡ vec_capacity self.old.by_address }
        ensures device_capacity { vec_capacity self.new.by_device ≡ vec_capacity self.old.by_device }
    {
        file_by_address(&mut self.by_address, connection);
        file_by_device(&mut self.by_device, connection);
    }

    /// Takes a connection out.
    pub(crate) fn leave(&mut self, conn: u64)
        ensures by_address { self.new.by_address.items ≡ filter (λ c. not (c.number == conn)) self.old.by_address.items }
        ensures by_device { self.new.by_device.items ≡ filter (λ c. not (c.number == conn)) self.old.by_device.items }
        ensures address_capacity { vec_capacity self.new.by_address ≡ vec_capacity self.old.by_address }
        ensures device_capacity { vec_capacity self.new.by_device ≡ vec_capacity self.old.by_device }
    {
        strike(&mut self.by_address, conn);
        strike(&mut self.by_device, conn);
    }
}
