//! `qbec build`.
ghost use Rattle.std.specs.Prelude.{◌≡◌, map, Err, IfOk, OnOk, IfErr};
ghost use Rattle.commands.specs.declared.failure.Failure.TheVariants.{Refused};
ghost use Rattle.commands.specs.Parts.{IsUnwritten, IsWritten, IsMade, MakingFails, IsBuilt, BuildFails};
ghost use Rattle.commands.specs.Refusals.{compile_refusal};

use crate::explanation::Explanation;
use crate::failure::Failure;
use crate::files::{read_all, slices, write};
use qbec::CompileError;
use qbec::compile::compile;
use regalloc::strategy::Strategy;
use shell::Disk;
use std::alloc::Global;

/// Writes what was compiled to the file `out`. Where nothing was compiled, nothing is written.
fn put_compiled<'a, D: Disk>(
    disk: &mut D,
    out: &'a str,
    compiled: Result<Vec<u8>, CompileError>,
) -> Result<(), Failure<'a>>
    ensures refused { IfErr compiled (λ e. (result ≡ Err (Refused (compile_refusal e))) × (D.told disk.new ≡ D.told disk.old)) }
    ensures written { IfOk compiled (λ v. OnOk result (IsWritten (D.told disk.old) (D.told disk.new) out.now v.items)) }
    ensures fault { OnOk compiled (IfErr result (IsUnwritten (D.told disk.old) (D.told disk.new) out.entry)) }
{
    match compiled {
        Ok(bytes) => write(disk, out, bytes.as_slice()),
        Err(error) => Err(Failure::from(error)),
    }
}

/// Compiles texts to the file `out`, which is written only after success.
fn make<'a, D: Disk>(
    alloc: Global,
    allocator: &mut dyn Strategy,
    disk: &mut D,
    out: &'a str,
    texts: &[&[u8]],
) -> Result<(), Failure<'a>>
    ensures made { OnOk result (IsMade (D.told disk.old) (D.told disk.new) (map (λ t. t.now) texts.now) out.now) }
    ensures fails { IfErr result (MakingFails (D.told disk.old) (D.told disk.new) (map (λ t. t.now) texts.now) out.entry) }
{
    let compiled = compile(alloc, texts, allocator);
    put_compiled(disk, out, compiled)
}

/// Compiles the files to the file `out`, which is written only after success.
#[tactic(auto, unfolding(crate::specs::Parts::BuildFails))]
pub(crate) fn build<'a, D: Disk>(
    alloc: Global,
    allocator: &mut dyn Strategy,
    disk: &mut D,
    out: &'a str,
    paths: &[&'a str],
    explanation: &mut Explanation,
) -> Result<u8, Failure<'a>>
    ensures status { IfOk result (λ status. status ≡ 0) }
    ensures built { OnOk result (IsBuilt (D.told disk.old) (D.told disk.new) (map (λ p. p.now) paths.now) out.now) }
    ensures fails { IfErr result (BuildFails (D.told disk.old) (D.told disk.new) (map (λ p. p.now) paths.now) out.entry) }
{
    let texts = read_all(alloc, disk, paths)?;
    let slices = slices(alloc, texts.as_slice())?;
    explanation.add_texts(paths, slices.as_slice());
    make(alloc, allocator, disk, out, slices.as_slice())?;
    Ok(0)
}
