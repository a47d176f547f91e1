//! Checks of the files that the names of the working folder refer to, over any kernel.
ghost use Rattle.std.specs.Prelude.{◌≡◌, ◌+◌, ◌↔◌, IsTrue, Some, true, IfSome, IfOk, OnOk};
ghost use Rattle.host_system.specs.Kernel.{IsFound, IsFoundItself, IsPrepared, Looks, failed_any};
ghost use Rattle.host_system.specs.declared.system.FileName.TheVariants.{Journal};
ghost use Rattle.host_system.specs.Folder.{opens};
ghost use Rattle.ras_host.specs.Steps.Reasons.{AreOneFile, IsStill};
ghost use Rattle.ras_host.specs.Steps.OverKernel.{OpensIfThere};

use crate::found_files::FoundFiles;
use crate::refused::Refused;
use board_core::FileNo;
use host_system::{FileKind, FileName, FoundFile, Held, Kernel, Place, Refusal, Way};

/// Returns what was found of a file, or `None` if it is missing. Only a journal file may be behind
/// a symlink. Anything but a regular file is an error, because a call on it might wait forever;
/// `rasd.new` is the exception.
pub(crate) fn look<K: Kernel>(
    kernel: &mut K,
    refused: &mut Refused,
    name: FileName,
) -> Result<Option<FoundFile>, Refusal>
    ensures found { IfOk result (λ found. IfSome (K.told kernel.old) (IsFound name found)) }
    ensures looks { Looks (K.told kernel.old) (K.told kernel.new) (K.prepared kernel.old)
        (K.prepared kernel.new) }
    ensures cause { K.fails kernel.new + refused.new
        ≡ K.fails kernel.old + refused.old + failed_any result }
{
    let found = kernel.lstat(Place::Name(name))?;
    match name {
        FileName::New => Ok(found),
        FileName::Store => regular(refused, found),
        FileName::Journal(file) => look_through(kernel, refused, file, found),
    }
}

// Returns what was found of a journal file, whose name itself was found as `found`.
fn look_through<K: Kernel>(
    kernel: &mut K,
    refused: &mut Refused,
    file: FileNo,
    found: Option<FoundFile>,
) -> Result<Option<FoundFile>, Refusal>
    requires { IfSome (K.told kernel.old) (IsFoundItself (Place.Name (Journal file)) found) }
    ensures found { IfOk result (λ found. IfSome (K.told kernel.old) (IsFound (Journal file) found)) }
    ensures looks { Looks (K.told kernel.old) (K.told kernel.new) (K.prepared kernel.old)
        (K.prepared kernel.new) }
    ensures cause { K.fails kernel.new + refused.new
        ≡ K.fails kernel.old + refused.old + failed_any result }
{
    match found {
        Some(link) if link.kind == FileKind::Link => {
            check_owner(kernel, refused, &link)?;
            let behind = kernel.stat(Place::Name(FileName::Journal(file)))?;
            regular(refused, behind)
        }
        found => regular(refused, found),
    }
}

// Fails if neither root nor this process's user owns a symlink, because the file behind it may not
// belong to rasd.
fn check_owner<K: Kernel>(
    kernel: &mut K,
    refused: &mut Refused,
    link: &FoundFile,
) -> Result<(), Refusal>
    ensures looks { Looks (K.told kernel.old) (K.told kernel.new) (K.prepared kernel.old)
        (K.prepared kernel.new) }
    ensures cause { K.fails kernel.new + refused.new
        ≡ K.fails kernel.old + refused.old + failed_any result }
{
    if link.user == 0 {
        return Ok(());
    }
    let process = kernel.stat(Place::Process)?;
    if let Some(process) = process
        && link.user == process.user
    {
        return Ok(());
    }
    Err(refused.foreign_link(link, &process))
}

// Returns what was found of a file, which has to be a regular file if it exists.
fn regular(refused: &mut Refused, found: Option<FoundFile>) -> Result<Option<FoundFile>, Refusal>
    ensures same { IfOk result (λ same. same ≡ found) }
    ensures cause { refused.new ≡ refused.old + failed_any result }
{
    match found {
        Some(file) if file.kind != FileKind::Regular => Err(refused.not_regular(&file)),
        found => Ok(found),
    }
}

/// Opens a file to read it, and returns whether it exists. A symlink that leads nowhere is an error,
/// because the disk behind it may not be mounted.
pub(crate) fn open_to_read<K: Kernel>(
    kernel: &mut K,
    refused: &mut Refused,
    name: FileName,
) -> Result<bool, Refusal>
    ensures told { K.told kernel.new ≡ K.told kernel.old }
    ensures opens { IfOk result (λ is. OpensIfThere name is (K.told kernel.new)
        (K.prepared kernel.new)) }
    ensures cause { K.fails kernel.new + refused.new
        ≡ K.fails kernel.old + refused.old + failed_any result }
{
    let found = look(kernel, refused, name)?;
    if found.is_none() && kernel.lstat(Place::Name(name))?.is_none() {
        return Ok(false);
    }
    kernel.open(name, Way::Read)?;
    // A symlink may have replaced the store's file since.
    if name == FileName::Store {
        check_opened(kernel, refused, name, &found)?;
    }
    Ok(true)
}

// Fails if the file that was opened isn't the one that was found before.
fn check_opened<K: Kernel>(
    kernel: &mut K,
    refused: &mut Refused,
    name: FileName,
    found: &Option<FoundFile>,
) -> Result<(), Refusal>
    requires { IsPrepared (opens name) (K.told kernel.old) (K.prepared kernel.old) }
    ensures told { K.told kernel.new ≡ K.told kernel.old }
    ensures prepared { OnOk result (K.prepared kernel.new ≡ K.prepared kernel.old) }
    ensures cause { K.fails kernel.new + refused.new
        ≡ K.fails kernel.old + refused.old + failed_any result }
{
    let opened = kernel.fstat(Held::Opened(name))?;
    if !is_same(found, &Some(opened)) {
        kernel.close();
        return Err(refused.moved(found, &opened));
    }
    Ok(())
}

/// Fails if a journal file that is kept isn't the one that its name refers to any more, for example
/// because the file was removed or another file was moved there. Fails too if two names refer to one
/// file, or one of them to the standard output. Otherwise what is written would be lost. Returns what
/// was found of the journal files.
pub(crate) fn check_names<K: Kernel>(
    kernel: &mut K,
    refused: &mut Refused,
) -> Result<FoundFiles, Refusal>
    ensures apart { IfOk result (λ found. AreOneFile found.zero found.one → ⊥) }
    ensures looks { Looks (K.told kernel.old) (K.told kernel.new) (K.prepared kernel.old)
        (K.prepared kernel.new) }
    ensures cause { K.fails kernel.new + refused.new
        ≡ K.fails kernel.old + refused.old + failed_any result }
{
    let zero = check_name(kernel, refused, FileName::Journal(FileNo::Zero))?;
    let one = check_name(kernel, refused, FileName::Journal(FileNo::One))?;
    let store = kernel.lstat(Place::Name(FileName::Store))?;
    let new = kernel.lstat(Place::Name(FileName::New))?;
    let output = kernel.stat(Place::Output)?;
    check_apart(refused, &zero, &one)?;
    check_apart(refused, &zero, &store)?;
    check_apart(refused, &zero, &new)?;
    check_apart(refused, &zero, &output)?;
    check_apart(refused, &one, &store)?;
    check_apart(refused, &one, &new)?;
    check_apart(refused, &one, &output)?;
    check_apart(refused, &store, &new)?;
    check_apart(refused, &store, &output)?;
    check_apart(refused, &new, &output)?;
    Ok(FoundFiles { zero, one })
}

// Fails if both are the same file.
fn check_apart(
    refused: &mut Refused,
    one: &Option<FoundFile>,
    other: &Option<FoundFile>,
) -> Result<(), Refusal>
    ensures apart { OnOk result (AreOneFile one.now other.now → ⊥) }
    ensures cause { refused.new ≡ refused.old + failed_any result }
{
    if is_same(one, other) {
        return Err(refused.one_file(one, other));
    }
    Ok(())
}

/// Fails if what is written to a file would be lost: the file was moved, removed, exchanged or cut. A
/// write of one byte is a gate, whose link was written just before, so it isn't checked. Before a
/// file is begun from scratch, the names themselves are checked again.
pub(crate) fn check_to_write<K: Kernel>(
    kernel: &mut K,
    refused: &mut Refused,
    locked: &FoundFiles,
    name: FileName,
    place: u64,
    bytes: &[u8],
) -> Result<(), Refusal>
    ensures looks { Looks (K.told kernel.old) (K.told kernel.new) (K.prepared kernel.old)
        (K.prepared kernel.new) }
    ensures cause { K.fails kernel.new + refused.new
        ≡ K.fails kernel.old + refused.old + failed_any result }
{
    if place == 0 && name != FileName::New {
        check_names(kernel, refused)?;
    }
    match name {
        FileName::Journal(_) if bytes.len() > 1 => {
            check_journal(kernel, refused, locked, name, place)
        }
        FileName::New => check_linked(kernel, refused, name),
        _ => Ok(()),
    }
}

// Fails if a journal file's name doesn't refer any more to the file that was locked, or if the file
// is shorter than `place`. One call of the kernel checks all of this.
fn check_journal<K: Kernel>(
    kernel: &mut K,
    refused: &mut Refused,
    locked: &FoundFiles,
    name: FileName,
    place: u64,
) -> Result<(), Refusal>
    ensures looks { Looks (K.told kernel.old) (K.told kernel.new) (K.prepared kernel.old)
        (K.prepared kernel.new) }
    ensures cause { K.fails kernel.new + refused.new
        ≡ K.fails kernel.old + refused.old + failed_any result }
{
    let locked = match locked.of(name) {
        Some(locked) => locked,
        None => kernel.fstat(Held::Kept(name))?,
    };
    let found = kernel.stat(Place::Name(name))?;
    check_still(refused, &found, &locked, place)
}

// Fails if a kept file has no name left.
fn check_linked<K: Kernel>(
    kernel: &mut K,
    refused: &mut Refused,
    name: FileName,
) -> Result<(), Refusal>
    ensures looks { Looks (K.told kernel.old) (K.told kernel.new) (K.prepared kernel.old)
        (K.prepared kernel.new) }
    ensures cause { K.fails kernel.new + refused.new
        ≡ K.fails kernel.old + refused.old + failed_any result }
{
    let open = kernel.fstat(Held::Kept(name))?;
    if open.links == 0 {
        return Err(refused.without_a_name(&open));
    }
    Ok(())
}

// Fails if a name doesn't refer any more to the file that was locked, or if that file is shorter than
// `place`.
fn check_still(
    refused: &mut Refused,
    found: &Option<FoundFile>,
    locked: &FoundFile,
    place: u64,
) -> Result<(), Refusal>
    ensures still { OnOk result (IsStill found.now locked.now place) }
    ensures cause { refused.new ≡ refused.old + failed_any result }
{
    if !is_same(found, &Some(*locked)) {
        return Err(refused.moved(found, locked));
    }
    match found {
        Some(file) if file.length < place => Err(refused.shortened(file, place)),
        _ => Ok(()),
    }
}

// Returns what was found of a journal file, or `None` if it is missing. If a file is kept as this
// name's, it has to be the same file.
fn check_name<K: Kernel>(
    kernel: &mut K,
    refused: &mut Refused,
    name: FileName,
) -> Result<Option<FoundFile>, Refusal>
    ensures looks { Looks (K.told kernel.old) (K.told kernel.new) (K.prepared kernel.old)
        (K.prepared kernel.new) }
    ensures cause { K.fails kernel.new + refused.new
        ≡ K.fails kernel.old + refused.old + failed_any result }
{
    let found = look(kernel, refused, name)?;
    if !kernel.is_kept(name) {
        return Ok(found);
    }
    let open = kernel.fstat(Held::Kept(name))?;
    if open.kind != FileKind::Regular || !is_same(&found, &Some(open)) {
        return Err(refused.moved(&found, &open));
    }
    Ok(found)
}

/// Keeps the folder that a file's symlink leads into, if the name is a symlink's.
pub(crate) fn keep_folder<K: Kernel>(
    kernel: &mut K,
    refused: &mut Refused,
    name: FileName,
) -> Result<(), Refusal>
    ensures told { K.told kernel.new ≡ K.told kernel.old }
    ensures prepared { OnOk result (K.prepared kernel.new ≡ K.prepared kernel.old) }
    ensures reaches { OnOk result (K.reaches kernel.new name ≡ true) }
    ensures cause { K.fails kernel.new + refused.new
        ≡ K.fails kernel.old + refused.old + failed_any result }
{
    let found = kernel.lstat(Place::Name(name))?;
    match found {
        Some(link) if link.kind == FileKind::Link => kernel.open_folder(name),
        Some(_) => Ok(()),
        None => Err(refused.gone(&found)),
    }
}

// Returns whether both exist and are the same file.
fn is_same(one: &Option<FoundFile>, other: &Option<FoundFile>) -> bool
    ensures { IsTrue result ↔ AreOneFile one.now other.now }
{
    match (one, other) {
        (Some(one), Some(other)) => one.device == other.device && one.inode == other.inode,
        _ => false,
    }
}
