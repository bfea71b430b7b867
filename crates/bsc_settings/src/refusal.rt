//! Why a policy is refused.
use thiserror::Error;

/// What is wrong with an entry of a list of a policy.
#[derive(Clone, Copy, Debug, PartialEq, Eq, Error)]
pub enum EntryFault {
    /// It isn't a table.
    #[error("it is no table")]
    NoTable,
    /// A member without a device, or with something else there.
    #[error("`device` isn't there, or isn't the text of a UUID")]
    Device,
    /// A member without an address that names one node, or with something else there.
    #[error("`vmac` isn't there, or isn't 12 hexadecimal digits that name one node")]
    Vmac,
    /// A member without a group, or with something else there.
    #[error("`group` isn't there, or isn't 1 to 16 letters")]
    Group,
    /// A rule that neither allows nor denies.
    #[error("`do` isn't there, or is neither `allow` nor `deny`")]
    Do,
    /// A rule without a group from which it is, or with something else there.
    #[error("`from` isn't there, or is neither 1 to 16 letters nor `*`")]
    From,
    /// A rule without a group to which it is, or with something else there.
    #[error("`to` isn't there, or is neither 1 to 16 letters nor `*`")]
    To,
    /// There are as many before it as a policy takes.
    #[error("a policy takes no more than {most}")]
    Full { most: u32 },
    /// An entry before it has its address or its device. Entries are counted from 1.
    #[error("entry {entry} has its `vmac` or its `device`")]
    Twice { entry: u32 },
}

/// Why a policy is refused: its first fault. Entries are counted from 1.
#[derive(Clone, Copy, Debug, PartialEq, Eq, Error)]
pub enum PolicyRefusal {
    /// What stands at `policy.member` is no list.
    #[error("`policy.member` is no list")]
    MemberList,
    /// An entry of `policy.member` is at fault.
    #[error("entry {entry} of `policy.member`: {fault}")]
    Member { entry: u32, fault: EntryFault },
    /// What stands at `policy.rule` is no list.
    #[error("`policy.rule` is no list")]
    RuleList,
    /// An entry of `policy.rule` is at fault.
    #[error("entry {entry} of `policy.rule`: {fault}")]
    Rule { entry: u32, fault: EntryFault },
}
