//! What the ticks of a block leave for more lines.
use vcode::cost::line_cost;
use vcode::{Block, Jump, Line};

/// The most that a branch costs.
const BRANCH: u128 = 25;

/// What the ticks of a block leave, when its lines and its jump are paid.
pub(crate) fn credit(block: &Block<u32>) -> u128 {
    let mut credit = 0u128;
    for line in block.lines.as_slice() {
        credit = match line {
            Line::Tick { weight, .. } => credit.saturating_add(32 * u128::from(*weight)),
            _ => credit.saturating_sub(line_cost(line)),
        };
    }
    match block.jump {
        Jump::Goto(_) => credit.saturating_sub(2),
        _ => credit.saturating_sub(BRANCH),
    }
}
