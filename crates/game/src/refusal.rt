//! The line that says why a history is refused.
ghost use Rattle.std.specs.Prelude.{◌≡◌, ◌<◌, ◌++◌, OnOk};
ghost use Rattle.statement.specs.TextFaults.{refusal_line};
ghost use Rattle.statement.specs.HistoryTexts.{history_fault_words, role_part, IsRoleOf};

use crate::game::Game;
use statement::HistoryFault;
use std::alloc::{AllocError, Allocator};
use std::io::Write;

/// Adds the line of a refusal to the text: `refused`, the fault as it is displayed, the name of the role where one is at fault, and
/// a line feed. After an error, which is want of memory, the text may hold a beginning of the line.
pub fn add_history_refusal<G: Game, A: Allocator>(
    game: &G,
    fault: HistoryFault,
    text: &mut Vec<u8, A>,
) -> Result<(), AllocError>
    requires { IsRoleOf (G.rules game.now).roles fault }
    ensures { OnOk result (text.new.items ≡ text.old.items ++ refusal_line (history_fault_words fault ++ role_part (G.role_name game.now) fault)) }
{
    write!(text, "refused {fault}").map_err(|_| AllocError)?;
    if let HistoryFault::NotLegal(_, role) = fault {
        text.push(b' ')?;
        text.extend_from_slice(game.role_text(role))?;
    }
    text.push(b'\n')?;
    Ok(())
}
