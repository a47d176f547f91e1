//! The laws of each past of a folder, as a board sees it.
ghost use Rattle.std.specs.Prelude.{◌≡◌, ℕ, ◌≤◌, [], Option, Some};
ghost use Rattle.ras_base.specs.LittleEndian.{AreBytes};
ghost use Rattle.board_core.specs.Clock.{LeftNow};
ghost use Rattle.board_core.specs.Stop.{Left};
ghost use Rattle.host_system.specs.FolderPast.{FolderPast, bytes_or};
ghost use Rattle.host_system.specs.Folder.{Stopped};
ghost use Rattle.host_system.specs.View.{MayBegin, told_over, seen_now, clock_over};
ghost use Rattle.host_system.specs.BoardFile.{HasSettledStore};

/// The laws of a board over a system, whatever was done to the folder: of the board's model and of
/// what a crash leaves.
pub fn system_laws()
    // A crash may leave what the model says.
    ensures told { (past : Option FolderPast) (t : Left) → told_over past ≡ Some t
        → LeftNow (clock_over past) t }

    // A crash leaves the text that the model has, and no other.
    ensures text { (past : Option FolderPast) (t left : Left) → told_over past ≡ Some t
        → LeftNow (clock_over past) left → left.out ≡ t.out }

    // A crash leaves the record store that a board sees, if the store's file and its name are
    // durable.
    ensures store { (past : FolderPast) (left : Left) → HasSettledStore past
        → LeftNow (clock_over (Some past)) left → left.store ≡ (seen_now past).store }

    // What a crash may leave since some point, it may also leave since any earlier point.
    ensures earlier { (past : Option FolderPast) (s t : ℕ) (left : Left) → s ≤ t
        → (clock_over past).may_leave_since t left → (clock_over past).may_leave_since s left }

    // A board may begin over any files that a crash has left, if the bytes of the store's file are
    // below 256.
    ensures begins { (start : Stopped) → AreBytes (bytes_or start.store)
        → MayBegin (record { first = start; changes = [] }) }
{}
