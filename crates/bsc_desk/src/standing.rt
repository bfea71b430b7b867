//! What a desk stands for, as a lock asks for it.
use crate::desk::Desk;
use bsc_history::Stands;

impl Stands for Desk {
    ghost use Rattle.bsc_desk.specs.Standing.{DeskStands};

    ghost stands = { DeskStands };

    ghost about = { λ d. d.about };
}
