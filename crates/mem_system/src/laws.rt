//! Each run over a system whose results the model allows is a run over a system in memory.
ghost use Rattle.std.specs.Prelude.{◌≡◌, ℕ, ◌^◌, ◌<◌, List, length};
ghost use Rattle.host_system.specs.Folder.{Stopped};
ghost use Rattle.host_system.specs.FolderPast.{FolderPast};
ghost use Rattle.mem_system.specs.MemSystem.{begun_over};
ghost use Rattle.mem_system.specs.Transcript.{Exchange, Agrees, IsMet};

/// If the model of the folder allows the results of a system's calls, a system in memory has the
/// same results.
///
/// The other system needs no model: its answers are enough, those of all calls since the machine
/// started. One case that `System` allows is excluded: a read of a file whose bytes may not be
/// relied on, with other bytes than the model's.
pub fn transcript_laws()
    // A system in memory over the same files, with some calls chosen to fail and with memory for
    // all of them, has these results, and has the model's past at the end.
    ensures met { (start : Stopped) (transcript : List Exchange) (last : FolderPast)
        → length transcript < 2 ^ 64 → Agrees transcript (begun_over start).past last
        → IsMet start transcript last }
{}
