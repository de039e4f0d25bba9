//! What a clerk files at a desk, one command after the other.
ghost use Rattle.std.specs.Prelude.{◌≡◌, List, ◌++◌, OnOk};
ghost use Rattle.herd_register.specs.declared.command.Command.{Command};
ghost use Rattle.herd_clerks.specs.Deal.{HasFiled, every};

use crate::deal::Turn;
use crate::office_fault::OfficeFault;
use herd_office::{Desk, Office, OfficeName};
use std::sync::Wait;

/// Files the commands of a turn at a desk, in their order.
pub fn file_turn<N: OfficeName, H: Wait, R: Wait + Drop>(
    rt: &H,
    office: &Office<N, R>,
    desk: &mut Desk<N>,
    turn: Turn<'_>,
) -> Result<(), OfficeFault>
    ensures number { desk.new.number ≡ desk.old.number }
    ensures filed { (before : List Command) → HasFiled desk.old before → OnOk result
        (HasFiled desk.new (before ++ every turn.entry.step turn.entry.from turn.entry.commands.now)) }
{
    let mut place = turn.from;
    while place < turn.commands.len() {
        desk.file(rt, office, turn.commands[place])?;
        place += turn.step;
    }
    Ok(())
}
