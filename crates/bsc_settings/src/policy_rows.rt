//! The rows of a member and of a rule, as the code has them. `specs/Table.antt` has their tables; that these are their rows
//! is proved where they are read.
use crate::key::{KeyName, TextRow};

pub(crate) const MEMBER_DEVICE: TextRow = TextRow {
    key: KeyName::PolicyMember,
    word: "device",
};

pub(crate) const MEMBER_VMAC: TextRow = TextRow {
    key: KeyName::PolicyMember,
    word: "vmac",
};

pub(crate) const MEMBER_GROUP: TextRow = TextRow {
    key: KeyName::PolicyMember,
    word: "group",
};

pub(crate) const RULE_DO: TextRow = TextRow {
    key: KeyName::PolicyRule,
    word: "do",
};

pub(crate) const RULE_FROM: TextRow = TextRow {
    key: KeyName::PolicyRule,
    word: "from",
};

pub(crate) const RULE_TO: TextRow = TextRow {
    key: KeyName::PolicyRule,
    word: "to",
};
