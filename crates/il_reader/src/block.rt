//! Reading blocks.
ghost use Rattle.std.specs.Prelude.{◌≡◌, None, Some, suc, length, false, MatchResult};
ghost use Rattle.il_reader.specs.declared.fault.Unread.TheVariants.{Syntax};
ghost use Rattle.il_reader.specs.Prelude.{Gives, with_lines, with_line, maybe, sees, label, on_line, lined, jump, is_word, statement, lines, body, block};

use crate::fault::Unread;
use crate::jump::lined_jump;
use crate::kinds::is_word;
use crate::lines::{sees_statement, statement};
use crate::reader::Reader;
use crate::spacing::line_ends;
use crate::statement::Statement;
use il_ast::{Block, Inst, Jump, Label, Lined, Phi, Seq};

/// Reads a label on its line.
fn label_line(reader: &mut Reader<'_>) -> Result<Label, Unread>
    ensures { Gives (on_line label) reader.old reader.new result }
{
    let label = reader.label()?;
    line_ends(reader)?;
    Ok(label)
}

/// Reads a jump on its line.
fn jump_line(reader: &mut Reader<'_>) -> Result<Lined<Jump>, Unread>
    ensures { Gives (on_line (lined jump)) reader.old reader.new result }
{
    let jump = lined_jump(reader)?;
    line_ends(reader)?;
    Ok(jump)
}

/// Reads a jump on its line, if one comes.
fn optional_jump(reader: &mut Reader<'_>) -> Result<Option<Lined<Jump>>, Unread>
    ensures { Gives (maybe (sees is_word) (on_line (lined jump))) reader.old reader.new result }
{
    if is_word(reader.ahead()) {
        let jump = jump_line(reader)?;
        Ok(Some(jump))
    } else {
        Ok(None)
    }
}

/// Reads a line behind others, of which an instruction is one where `begun`, and answers whether an
/// instruction is one now. No phi stands behind an instruction.
fn push_line(
    reader: &mut Reader<'_>,
    begun: bool,
    phis: &mut Seq<Phi>,
    insts: &mut Seq<Lined<Inst>>,
) -> Result<bool, Unread>
    ensures { MatchResult result
        (λ begun_now. with_line begun phis.old insts.old (on_line statement reader.old) ≡ Some (((phis.new, insts.new), begun_now), reader.new))
        (λ e. e ≡ Syntax → with_line begun phis.old insts.old (on_line statement reader.old) ≡ None) }
{
    let is_inst = match statement(reader)? {
        Statement::Phi(phi) => {
            phis.push(phi)?;
            false
        }
        Statement::Inst(inst) => {
            insts.push(inst)?;
            true
        }
    };
    line_ends(reader)?;
    if begun && !is_inst {
        return Err(Unread::Syntax);
    }
    Ok(is_inst)
}

/// Reads the lines of a block before its jump behind others, where no instruction is among these.
fn push_lines(
    reader: &mut Reader<'_>,
    phis: &mut Seq<Phi>,
    insts: &mut Seq<Lined<Inst>>,
) -> Result<(), Unread>
    ensures { MatchResult result
        (λ _. with_lines phis.old insts.old (lines (suc (length reader.old.rest)) false reader.old) ≡ Some ((phis.new, insts.new), reader.new))
        (λ e. e ≡ Syntax → lines (suc (length reader.old.rest)) false reader.old ≡ None) }
{
    let mut begun = false;
    for _ in 0..reader.rounds() {
        if !sees_statement(reader) {
            return Ok(());
        }
        begun = push_line(reader, begun, phis, insts)?;
    }
    Err(Unread::Syntax)
}

/// Reads the lines of a block before its jump.
#[tactic(auto, using(crate::proofs::BlockLines::lines_before_none))]
fn body(reader: &mut Reader<'_>) -> Result<(Seq<Phi>, Seq<Lined<Inst>>), Unread>
    ensures { Gives body reader.old reader.new result }
{
    let mut phis = Seq::new(reader.alloc());
    let mut insts = Seq::new(reader.alloc());
    push_lines(reader, &mut phis, &mut insts)?;
    Ok((phis, insts))
}

/// Reads a block, which may lack a jump.
pub(crate) fn block(reader: &mut Reader<'_>) -> Result<Block, Unread>
    ensures { Gives block reader.old reader.new result }
{
    let line = reader.line();
    let label = label_line(reader)?;
    let (phis, insts) = body(reader)?;
    let jump = optional_jump(reader)?;
    Ok(Block {
        line,
        label,
        phis,
        insts,
        jump,
    })
}
