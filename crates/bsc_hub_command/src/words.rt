//! What the words of the command say.

/// What the words `hub PATH` say, with `--sessions N`, `--journal PREFIX` and `--journal-octets N` where they are there.
#[derive(Clone, Copy)]
pub struct HubWords<'a> {
    /// Where the settings are.
    pub path: &'a str,
    /// How many links are served: 1 to 1,000,000; None for ever.
    pub sessions: Option<u64>,
    /// Under what prefix journals are kept, if they are.
    pub journal: Option<&'a str>,
    /// To how many octets their files are limited, if they are.
    pub limit: Option<u64>,
}
