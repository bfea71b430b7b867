//! What a state under a turn stands for.

/// A state that stands for a history. Only contracts speak of these members: no code runs them.
pub trait Stands {
    ghost use Rattle.std.specs.Prelude.{List};
    ghost use Rattle.bsc_history.specs.declared.limits.About.{About};
    ghost use Rattle.bsc_history.specs.declared.mark.Stamped.{Stamped};

    /// The state stands for this history. A state may stand for many, and then it stands for each of them.
    ghost stands: { Self → List Stamped → Type 0 };

    /// What is fixed of the state: it is the same for every state of one turn.
    ghost about: { Self → About };
}
