//! Which links were touched.
ghost use Rattle.std.specs.Prelude.{◌≡◌, false};
ghost use Rattle.bsc_node.specs.declared.link_name.LinkName.{LinkName};
ghost use Rattle.bsc_node.specs.Links.{same_link};
ghost use Rattle.bsc_node_core.specs.Tables.{is_touched};

use bsc_node::LinkName;

/// Which links were touched since an event began.
#[derive(Clone, Copy, Debug)]
pub(crate) enum Touched {
    /// None.
    Nothing,
    /// This one, and once.
    One(LinkName),
    /// More than one or more than once, or it isn't known which.
    Many,
}

impl Touched {
    /// These, and this one.
    pub(crate) fn also(self, name: LinkName) -> Touched
        ensures { (other : LinkName) → is_touched result other ≡ false → (same_link name other ≡ false) × (is_touched self other ≡ false) }
    {
        match self {
            Touched::Nothing => Touched::One(name),
            Touched::One(_) | Touched::Many => Touched::Many,
        }
    }
}
