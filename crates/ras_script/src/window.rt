//! The buffer of a reader of lines: the line that was returned last, the bytes after it, and room.

ghost use Rattle.std.specs.Prelude.{◌≡◌, ◌+◌, ◌<◌, ◌≤◌, [], ◌++◌, length, take, drop, slice_range, vec_len, IfOk, OnErr, OnOk, MatchOption};
ghost use Rattle.ras_script.specs.Steps.Feeds.{line_feed_in};
ghost use Rattle.board_core.specs.Cause.{HasCause};
ghost use Rattle.board_core.specs.Takes.{Takes};
ghost use Rattle.ras_script.specs.Steps.ReaderSteps.{FeedAt, Gains};
ghost use Rattle.ras_script.specs.SplittingLaws.{Lacks};
ghost use Rattle.ras_script.specs.declared.window.TheConstants.{BUFFER_BYTES};

use crate::reader::LONGEST_LINE;
use board_core::{Failed, Source};
use memchr::memchr;
use ras_base::NoMemory;
use std::alloc::Global;

// A line and its line feed.
const BUFFER_BYTES: usize = LONGEST_LINE + 1;

// `bytes[line..line_end]` was returned last; `bytes[start..end]` was read after it; and `line_feed`
// is the index of the first line feed of these, or `end`. It is stored because it is used twice:
// before a line is printed, and when the next line is returned.
#[derive(Drop)]
pub(crate) struct Window {
    bytes: Vec<u8>,
    line: usize,
    line_end: usize,
    start: usize,
    end: usize,
    line_feed: usize,
    ghost size: { vec_len bytes ≡ BUFFER_BYTES },
    ghost line_ordered: { line ≤ line_end },
    ghost line_within: { line_end ≤ BUFFER_BYTES },
    ghost ordered: { start ≤ end },
    ghost within: { end ≤ BUFFER_BYTES },
    ghost found: { line_feed ≡ start + line_feed_in (slice_range bytes.items start end) },
}

impl Window {
    ghost use Rattle.ras_script.specs.Steps.Window.{line_in, held_in};

    pub(crate) fn new(alloc: Global) -> Result<Window, NoMemory>
        ensures line { IfOk result (λ window. line_in window ≡ []) }
        ensures held { IfOk result (λ window. held_in window ≡ []) }
    {
        let bytes = vec![in alloc; 0u8; BUFFER_BYTES]?;
        Ok(Window {
            bytes,
            line: 0,
            line_end: 0,
            start: 0,
            end: 0,
            line_feed: 0,
        })
    }

    // Returns the line that was returned last.
    pub(crate) fn line(&self) -> &[u8]
        ensures { result.now ≡ line_in self.now }
    {
        &self.bytes[self.line..self.line_end]
    }

    // Returns how many bytes are in the buffer after that line.
    pub(crate) fn held_len(&self) -> usize
        ensures value { result ≡ length (held_in self.now) }
        ensures few { result ≤ BUFFER_BYTES }
    {
        self.end - self.start
    }

    // Returns the index of the first line feed among these bytes.
    pub(crate) fn first_line_feed(&self) -> Option<usize>
        ensures { MatchOption result (Lacks 10 (held_in self.now))
            (λ place. FeedAt place (held_in self.now)) }
    {
        if self.line_feed < self.end {
            Some(self.line_feed - self.start)
        } else {
            None
        }
    }

    // Returns the first `size` bytes as a line, and drops the `dropped` bytes after them.
    pub(crate) fn give(&mut self, size: usize, dropped: usize)
        requires { size + dropped ≤ length (held_in self.old) }
        ensures line { line_in self.new ≡ take size (held_in self.old) }
        ensures held { held_in self.new ≡ drop (size + dropped) (held_in self.old) }
    {
        self.line = self.start;
        self.line_end = self.start + size;
        self.start = self.line_end + dropped;
        self.line_feed = self.start + line_feed_in(&self.bytes[self.start..self.end]);
    }

    // Moves the bytes to the front. They may overwrite the line that was returned last.
    pub(crate) fn move_to_front(&mut self)
        ensures held { held_in self.new ≡ held_in self.old }
        ensures front { self.new.start ≡ 0 }
        ensures line { line_in self.new ≡ [] }
    {
        self.line = 0;
        self.line_end = 0;
        if self.start > 0 {
            let (start, end) = (self.start, self.end);
            self.bytes.copy_within(start..end, 0);
            self.start = 0;
            self.end = end - start;
            self.line_feed -= start;
        }
    }

    // Reads at most `most` bytes after the bytes in the buffer.
    pub(crate) fn read_from<S: Source>(
        &mut self,
        source: &mut S,
        most: usize,
    ) -> Result<usize, Failed>
        requires some { 0 < most }
        requires room { self.old.end + most ≤ BUFFER_BYTES }
        ensures within { IfOk result (λ n. n ≤ most) }
        ensures gained { IfOk result (λ n. Gains n (held_in self.old) (held_in self.new)
            (S.left source.old) (S.left source.new)) }
        ensures failed { OnErr result (S.left source.new ≡ S.left source.old) }
        ensures unread { OnErr result (held_in self.new ≡ held_in self.old) }
        ensures cause { HasCause (S.faults source.old) (S.faults source.new) result }
        ensures line { line_in self.old ≡ [] → line_in self.new ≡ [] }
    {
        let searched = self.end - self.start;
        let found = self.line_feed - self.start;
        let count = read_after(source, &mut self.bytes, self.end, most)?;
        self.end += count;
        let held = &self.bytes[self.start..self.end];
        self.line_feed = self.start + line_feed_past(held, searched, found);
        Ok(count)
    }
}

// Reads at most `most` bytes into the buffer from `end` on.
fn read_after<S: Source>(
    source: &mut S,
    bytes: &mut [u8],
    end: usize,
    most: usize,
) -> Result<usize, Failed>
    requires some { 0 < most }
    requires room { end + most ≤ length bytes.old }
    ensures front { take end bytes.new ≡ take end bytes.old }
    ensures within { IfOk result (λ n. n ≤ most) }
    ensures taken { IfOk result (λ n. Takes n (drop end bytes.new) (S.left source.old) (S.left source.new)) }
    ensures failed { OnErr result (S.left source.new ≡ S.left source.old) }
    ensures cause { HasCause (S.faults source.old) (S.faults source.new) result }
{
    source.read(&mut bytes[end..end + most])
}

// Returns the index of the first line feed, or the length if there is no line feed, given the
// result `found` for the first `searched` bytes.
fn line_feed_past(bytes: &[u8], searched: usize, found: usize) -> usize
    requires inside { searched ≤ length bytes.now }
    requires found { found ≡ line_feed_in (take searched bytes.now) }
    ensures place { result ≡ line_feed_in bytes.now }
    ensures within { result ≤ length bytes.now }
{
    if found < searched {
        found
    } else {
        searched + line_feed_in(&bytes[searched..])
    }
}

// Returns the index of the first line feed, or the length if there is no line feed.
fn line_feed_in(bytes: &[u8]) -> usize
    ensures place { result ≡ line_feed_in bytes.now }
    ensures within { result ≤ length bytes.now }
{
    match memchr(b'\n', bytes) {
        Some(place) => place,
        None => bytes.len(),
    }
}
