//! The entry that a commit makes.
use std::marker::Brand;

/// The entry that a commit makes, with its mark where it has one. The call picks it by this type, for
/// contracts alone.
pub trait Makes {
    ghost use Rattle.bsc_history.specs.declared.mark.Stamped.{Stamped};

    /// The entry and its mark.
    ghost stamped: { Stamped };
}

// A call picks the entry of its own commit. This one stands in where no call does.
impl Makes for Brand {
    ghost use Rattle.std.specs.Prelude.{[], None};
    ghost use Rattle.bsc_history.specs.declared.call.Call.TheVariants.{Stop};
    ghost use Rattle.bsc_history.specs.declared.reply.Reply.TheVariants.{NoHolder};

    ghost stamped = { record { entry = record { caller = 0; call = Stop; looks = []; reply = NoHolder }; mark = None } };
}
