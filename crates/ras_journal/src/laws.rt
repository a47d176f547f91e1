//! The laws of journal files, by their format.
ghost use Rattle.std.specs.Prelude.{◌≡◌, ◌≢◌, ◌+◌, ◌<◌, ◌≤◌, ◌∷◌, ◌++◌, [], ℕ, List, Option, None, Some, Ok, Err, length, take};
ghost use Rattle.ras_base.specs.LittleEndian.{AreBytes};
ghost use Rattle.board_core.specs.declared.board.FileNo.{FileNo};
ghost use Rattle.ras_facts.specs.declared.entry.Entry.{Entry};
ghost use Rattle.ras_account.specs.History.{empty};
ghost use Rattle.ras_account.specs.Account.{State, account_of};
ghost use Rattle.entry_format.specs.declared.version.Version.{Version};
ghost use Rattle.journal_format.specs.Links.{link_bytes};
ghost use Rattle.board_core.specs.Doing.{Moment};
ghost use Rattle.board_core.specs.Stop.{Left};
ghost use Rattle.board_core.specs.Told.{Told};
ghost use Rattle.ras_account.specs.Continued.{account_after_all};
ghost use Rattle.ras_journal.specs.Appending.{Appending, HasRoom, Links, after_append, append_acts, standing_with};
ghost use Rattle.ras_journal.specs.declared.limits.TheConstants.{CLOSED_GATE, LAST_GENERATION, LONGEST_FILE, MOST_LINKS, OPEN_GATE};
ghost use Rattle.ras_journal.specs.declared.standing.Standing.{Standing};
ghost use Rattle.ras_journal.specs.File.{FileFront, front_of};
ghost use Rattle.ras_journal.specs.Recovered.{IsAt, too_long, damaged, recovered};
ghost use Rattle.ras_journal.specs.Laws.{IsRead, IsDamaged, IsShort, CanBegin, begun, begun_front, CanFollow, followed, opened_with, FollowsWhole};

/// The laws of one journal file. A file is read up to its closed gate: this gives the gate's
/// offset, the number of links before it, and the account.
pub fn file_laws()
    // A file that begins with a checkpoint and a closed gate is read, whatever follows.
    ensures checkpoint { (taken : Option ℕ) (version : Version) (generation : ℕ)
        (bytes : List ℕ) (account : State) (gate : ℕ) (rest : List ℕ)
        → CanBegin taken version generation bytes account → gate ≢ OPEN_GATE
        → IsRead taken (begun version generation bytes ++ gate ∷ rest)
        (begun_front version generation bytes account) }

    // Bytes after the closed gate don't matter.
    ensures after_the_closed_gate { (taken : Option ℕ) (file other : List ℕ) (front : FileFront)
        → IsRead taken file front → take (front.gate + 1) other ≡ take (front.gate + 1) file
        → IsRead taken other front }

    // If the gate is opened on a link with a closed gate after it, the link is read too.
    ensures one_link_more { (taken : Option ℕ) (file : List ℕ) (front : FileFront)
        (entries : List Entry) (gate : ℕ) (rest : List ℕ)
        → IsRead taken file front → CanFollow front entries → gate ≢ OPEN_GATE
        → IsRead taken (opened_with file front (link_bytes entries ++ gate ∷ rest))
        (followed front entries) }

    // A file that is cut in the link after an open gate is damaged there, and never read without
    // the link. The damage is at the payload's length, at the payload, or at the next gate.
    ensures cut_in_the_length { (taken : Option ℕ) (file : List ℕ) (front : FileFront)
        (entries : List Entry) (n : ℕ)
        → IsRead taken file front → CanFollow front entries → n < 4
        → IsDamaged taken (opened_with file front (take n (link_bytes entries)))
        (front.gate + 1) }
    ensures cut_in_the_payload { (taken : Option ℕ) (file : List ℕ) (front : FileFront)
        (entries : List Entry) (n : ℕ)
        → IsRead taken file front → CanFollow front entries
        → 4 ≤ n → n < length (link_bytes entries)
        → IsDamaged taken (opened_with file front (take n (link_bytes entries)))
        (front.gate + 5) }
    ensures cut_at_the_next_gate { (taken : Option ℕ) (file : List ℕ) (front : FileFront)
        (entries : List Entry)
        → IsRead taken file front → CanFollow front entries
        → IsDamaged taken (opened_with file front (link_bytes entries))
        (front.gate + 1 + length (link_bytes entries)) }

    // Whatever bytes follow an open gate, the file is damaged, or a whole link follows and all its
    // entries are counted.
    ensures whole_or_damaged { (taken : Option ℕ) (file : List ℕ) (front longer : FileFront)
        (bytes : List ℕ)
        → IsRead taken file front → AreBytes bytes
        → IsRead taken (opened_with file front bytes) longer → FollowsWhole front bytes longer }
{}

/// The laws of an append, by its acts: for a journal in version 2 whose file has room for the link.
pub fn append_laws()
    // From whatever a crash during the append leaves, the account is recovered without the link or
    // with it.
    ensures moments { (standing : Standing) (account : State) (entries : List Entry)
        (link : List ℕ) (t : Told) (left : Left)
        → HasRoom standing link → Links account entries link → IsAt standing account t.here
        → Moment (append_acts standing link) t left
        → Appending standing account entries t.here left }

    // After the append, the files contain the account with the link, at the next position.
    ensures done { (standing : Standing) (account : State) (entries : List Entry)
        (link : List ℕ) (t : Told)
        → HasRoom standing link → Links account entries link → IsAt standing account t.here
        → IsAt (standing_with standing link) (account_after_all account entries)
        (after_append standing link t).here }
{}

/// The limits of a journal and its gates, in digits.
pub fn limit_laws()
    ensures longest_file { LONGEST_FILE ≡ 67108864 }
    ensures most_links { MOST_LINKS ≡ 256 }
    ensures last_generation { LAST_GENERATION ≡ 9223372036854775807 }
    ensures open_gate { OPEN_GATE ≡ 165 }
    ensures closed_gate { CLOSED_GATE ≡ 0 }
{}

/// The laws of two journal files.
pub fn journal_laws()
    // If one file is too long, both are rejected.
    ensures too_long_zero { (file0 file1 : List ℕ) → LONGEST_FILE < length file0
        → recovered file0 file1 ≡ Err too_long }
    ensures too_long_one { (file0 file1 : List ℕ) → LONGEST_FILE < length file1
        → recovered file0 file1 ≡ Err too_long }

    // Two files that aren't valid give the empty account.
    ensures none_stands { (file0 file1 : List ℕ) → IsShort file0 → IsShort file1
        → front_of None file0 ≡ Ok None → front_of None file1 ≡ Ok None
        → recovered file0 file1 ≡ Ok (account_of empty) }

    // Damage of file 0 is reported before damage of file 1.
    ensures damage_zero { (file0 file1 : List ℕ) (place : ℕ) → IsShort file0 → IsShort file1
        → IsDamaged None file0 place → recovered file0 file1 ≡ Err (damaged FileNo.Zero place) }

    // Two valid files of one generation are damaged at the generation of file 1.
    ensures one_generation { (file0 file1 : List ℕ) (zero one : FileFront) → IsShort file0
        → IsShort file1 → IsRead None file0 zero → IsRead None file1 one
        → zero.generation ≡ one.generation → recovered file0 file1 ≡ Err (damaged FileNo.One 9) }
{}
