//! The lines that the filter prints.

ghost use Rattle.std.specs.Prelude.{◌≡◌, ◌∷◌, ◌++◌, [], OnOk};
ghost use Rattle.std.specs.Fmt.{decimal};
ghost use Rattle.hex.specs.Hex.{encode_lower};
ghost use Rattle.ras_script.specs.LineLaws.{line_text};
ghost use Rattle.ras_script.specs.declared.line.ErrorReport.TheVariants.{Block};
ghost use Rattle.ras_script.specs.declared.line.Line.TheVariants as asks;
ghost use Rattle.ras_script.specs.declared.line.Table.TheVariants.{Hest};
ghost use Rattle.block_lines.specs.Texts.{cut_report_line, remark_text};

use crate::report::Remark;
use ras_base::{NoMemory, push_number};
use std::alloc::Global;

// Appends what is printed about the line with this number.
pub(crate) fn push_remark(text: &mut Vec<u8>, remark: Remark, number: u64) -> Result<(), NoMemory>
    ensures { OnOk result (text.new.items ≡ text.old.items ++ remark_text number remark) }
{
    match remark {
        Remark::Nothing => return Ok(()),
        Remark::Unread => push_named(text, b"# unread ", number)?,
        Remark::LeftOut => push_named(text, b"# left out ", number)?,
        Remark::Partial { source, begun } => push_partial(text, source, begun)?,
    }
    text.push(b'\n')?;
    Ok(())
}

// Appends the comment of a report that is cut.
pub(crate) fn push_partial(text: &mut Vec<u8>, source: u16, begun: u64) -> Result<(), NoMemory>
    ensures { OnOk result (text.new.items ≡ text.old.items ++ cut_report_line source begun) }
{
    push_named(text, b"# partial source=", u64::from(source))?;
    push_named(text, b" number=", begun)
}

// Appends the line of a table of sources, and a line feed.
pub(crate) fn push_table(alloc: Global, text: &mut Vec<u8>, table: &[u8]) -> Result<(), NoMemory>
    ensures { OnOk result (text.new.items
        ≡ text.old.items ++ line_text (asks.Table (Hest table.now)) ++ 10 ∷ []) }
{
    text.extend_from_slice(b"hest ")?;
    push_hexadecimal(alloc, text, table)?;
    text.push(b'\n')?;
    Ok(())
}

/// What a line `ghes` says of a block, besides the block's bytes.
#[derive(Clone, Copy, Debug)]
pub(crate) struct BlockName {
    pub(crate) boot: u64,
    pub(crate) seconds: u64,
    pub(crate) source: u16,
    pub(crate) number: u64,
}

// Appends the line of a block, and a line feed.
pub(crate) fn push_ghes(
    alloc: Global,
    text: &mut Vec<u8>,
    name: BlockName,
    block: &[u8],
) -> Result<(), NoMemory>
    ensures { OnOk result (text.new.items ≡ text.old.items
        ++ line_text (asks.Report (Block name.boot name.seconds name.source name.number block.now))
        ++ 10 ∷ []) }
{
    push_named(text, b"ghes ", name.boot)?;
    push_named(text, b" ", name.seconds)?;
    push_named(text, b" ", u64::from(name.source))?;
    push_named(text, b" ", name.number)?;
    text.push(b' ')?;
    push_hexadecimal(alloc, text, block)?;
    text.push(b'\n')?;
    Ok(())
}

// Appends bytes in hexadecimal.
fn push_hexadecimal(alloc: Global, text: &mut Vec<u8>, bytes: &[u8]) -> Result<(), NoMemory>
    ensures { OnOk result (text.new.items ≡ text.old.items ++ encode_lower bytes.now) }
{
    text.extend_from_slice(hex::encode(alloc, bytes)?.as_bytes())?;
    Ok(())
}

// Appends a number in decimal after a name.
fn push_named(text: &mut Vec<u8>, name: &[u8], number: u64) -> Result<(), NoMemory>
    ensures { OnOk result (text.new.items ≡ text.old.items ++ name.now ++ decimal number) }
{
    text.extend_from_slice(name)?;
    push_number(text, number)
}
