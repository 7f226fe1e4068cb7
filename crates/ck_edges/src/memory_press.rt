ghost use Rattle.std.specs.Prelude.{◌≡◌, ◌≤◌, ◌<◌, ◌+◌, ◌↔◌, [], Some, true, false, length};
ghost use Rattle.std.specs.Prelude.{take, drop, slice_get, vec_len, vec_capacity};
ghost use Rattle.std.specs.Prelude.{OnOk, OnErr, IsOk, IsNone, IsSomeAnd};
ghost use Rattle.ck_edges.specs.Faults.{next_count};
ghost use Rattle.ck_edges.specs.Press.{with_begun, with_written, with_ended};
ghost use Rattle.ck_edges.specs.Starts.{end_before, sheets_at, EndsBy, IsSheetAt};
ghost use Rattle.ck_edges.specs.Starts.{AreInOrder, AreInOrder-prop};

use crate::failing::{count_taken, failure_of};
use crate::fault::{Failed, FaultCount};
use crate::press::Press;
use fixed_point::Memory;
use std::alloc::Global;

/// Where the name and the bytes of a sheet start in the text of all sheets. They end where the next
/// sheet starts.
#[derive(Clone, Copy)]
struct Start {
    name: usize,
    bytes: usize,
}

/// A press in memory, which fails where it is told to, and where it has no room.
///
/// It tells its sheets.
#[derive(Drop)]
pub struct MemPress {
    text: Vec<u8>,
    starts: Vec<Start>,
    unended: bool,
    sheet_room: usize,
    byte_room: usize,
    fails: Vec<(u64, usize)>,
    calls: u64,
    faults: FaultCount,
    ghost in_order: { AreInOrder starts.items (length text.items) } by { AreInOrder-prop _ _ },
    ghost reserved_bytes: { vec_len text + byte_room ≤ vec_capacity text },
    ghost reserved_sheets: { vec_len starts + sheet_room ≤ vec_capacity starts },
}

impl MemPress {
    ghost use Rattle.ck_edges.specs.MemPress.{press_sheets, has_unended, sheet_room, byte_room};
    ghost use Rattle.ck_edges.specs.MemPress.{failing_calls, calls_made, calls_failed};

    /// A press without sheets and without room. The calls whose numbers are listed in `fails`,
    /// counted from 1 over all three kinds together, will fail, a write after at most as many bytes
    /// as stand beside its number.
    pub fn new(alloc: Global, fails: Vec<(u64, usize)>) -> MemPress
        ensures empty { press_sheets result ≡ [] }
        ensures closed { has_unended result ≡ false }
        ensures no_sheets { sheet_room result ≡ 0 }
        ensures no_bytes { byte_room result ≡ 0 }
        ensures fails { failing_calls result ≡ fails.items }
        ensures uncalled { calls_made result ≡ 0 }
        ensures unfailed { calls_failed result ≡ 0 }
    {
        MemPress {
            text: Vec::new(alloc),
            starts: Vec::new(alloc),
            unended: false,
            sheet_room: 0,
            byte_room: 0,
            fails,
            calls: 0,
            faults: FaultCount::new(),
        }
    }

    /// Makes room for so many sheets more, and so many bytes of their names and of what is written,
    /// in place of the room that was left.
    pub fn room(&mut self, sheets: usize, bytes: usize) -> Result<(), Memory>
        ensures sheets { OnOk result (sheet_room self.new ≡ sheets) }
        ensures bytes { OnOk result (byte_room self.new ≡ bytes) }
        ensures err { OnErr result ((sheet_room self.new ≡ sheet_room self.old)
            × (byte_room self.new ≡ byte_room self.old)) }
        ensures same_sheets { press_sheets self.new ≡ press_sheets self.old }
        ensures same_unended { has_unended self.new ≡ has_unended self.old }
        ensures same_fails { failing_calls self.new ≡ failing_calls self.old }
        ensures same_calls { calls_made self.new ≡ calls_made self.old }
        ensures same_faults { calls_failed self.new ≡ calls_failed self.old }
    {
        self.text.reserve_exact(bytes)?;
        self.starts.reserve_exact(sheets)?;
        self.byte_room = bytes;
        self.sheet_room = sheets;
        Ok(())
    }

    /// How many sheets were begun. It takes no memory.
    pub fn sheets(&self) -> usize
        ensures { result ≡ length (press_sheets self.now) }
    {
        self.starts.len()
    }

    /// The name of sheet `i`, counted from 0. It takes no memory.
    pub fn name_of(&self, i: usize) -> &[u8]
        requires { i < length (press_sheets self.now) }
        ensures { IsSomeAnd (slice_get (press_sheets self.now) i)
            (λ sheet. result.now ≡ sheet.name) }
    {
        let (start, _) = self.place_of(i);
        &self.text[start.name..start.bytes]
    }

    /// The bytes that were written to sheet `i`, counted from 0. It takes no memory.
    pub fn bytes_of(&self, i: usize) -> &[u8]
        requires { i < length (press_sheets self.now) }
        ensures { IsSomeAnd (slice_get (press_sheets self.now) i)
            (λ sheet. result.now ≡ sheet.bytes) }
    {
        let (start, end) = self.place_of(i);
        &self.text[start.bytes..end]
    }

    /// Whether sheet `i`, counted from 0, was ended. It takes no memory.
    pub fn is_ended(&self, i: usize) -> bool
        requires { i < length (press_sheets self.now) }
        ensures { IsSomeAnd (slice_get (press_sheets self.now) i) (λ sheet. result ≡ sheet.ended) }
    {
        self.starts.len() - i > 1 || !self.unended
    }

    /// Where sheet `i` starts in the text, and where it ends.
    fn place_of(&self, i: usize) -> (Start, usize)
        requires { i < length (press_sheets self.now) }
        ensures sheet { IsSomeAnd (slice_get (press_sheets self.now) i)
            (λ sheet. IsSheetAt self.now.text.items result.0 result.1 sheet) }
        ensures in_order { EndsBy result.0 result.1 }
        ensures within { result.1 ≤ length self.now.text.items }
    {
        (self.starts[i], self.end_of(i))
    }

    /// Where sheet `i` ends in the text: where the next one starts, or else with the text.
    fn end_of(&self, i: usize) -> usize
        requires { i < length self.now.starts.items }
        ensures { result
            ≡ end_before (drop (i + 1) self.now.starts.items) (length self.now.text.items) }
    {
        match self.starts.get(i + 1) {
            Some(next) => next.name,
            None => self.text.len(),
        }
    }

    /// Begins a sheet that there is room for.
    fn start(&mut self, name: &[u8])
        requires closed { has_unended self.old ≡ false }
        requires sheet { 0 < sheet_room self.old }
        requires bytes { length name.now ≤ byte_room self.old }
        ensures begun { press_sheets self.new ≡ with_begun name.now (press_sheets self.old) }
        ensures open { has_unended self.new ≡ true }
        ensures sheet_room { sheet_room self.new + 1 ≡ sheet_room self.old }
        ensures byte_room { byte_room self.new + length name.now ≡ byte_room self.old }
        ensures same_fails { failing_calls self.new ≡ failing_calls self.old }
        ensures same_calls { calls_made self.new ≡ calls_made self.old }
        ensures same_faults { calls_failed self.new ≡ calls_failed self.old }
    {
        let place = self.text.len();
        let fits = self.text.extend_from_slice(name).is_ok();
        prove!(fits);
        let bytes = self.text.len();
        let fits = self.starts.push(Start { name: place, bytes }).is_ok();
        prove!(fits);
        self.byte_room -= name.len();
        self.sheet_room -= 1;
        self.unended = true;
    }

    /// Adds bytes that there is room for to the last sheet.
    fn add(&mut self, bytes: &[u8])
        requires { length bytes.now ≤ byte_room self.old }
        ensures written { press_sheets self.new ≡ with_written bytes.now (press_sheets self.old) }
        ensures same_unended { has_unended self.new ≡ has_unended self.old }
        ensures sheet_room { sheet_room self.new ≡ sheet_room self.old }
        ensures byte_room { byte_room self.new + length bytes.now ≡ byte_room self.old }
        ensures same_fails { failing_calls self.new ≡ failing_calls self.old }
        ensures same_calls { calls_made self.new ≡ calls_made self.old }
        ensures same_faults { calls_failed self.new ≡ calls_failed self.old }
    {
        let fits = self.text.extend_from_slice(bytes).is_ok();
        prove!(fits);
        self.byte_room -= bytes.len();
    }
}

impl Press for MemPress {
    ghost use Rattle.ck_edges.specs.MemPress.{press_sheets, has_unended, sheet_room, byte_room};
    ghost use Rattle.ck_edges.specs.MemPress.{failing_calls, calls_made, calls_failed};
    ghost use Rattle.ck_edges.specs.MemPress.{next_failure, next_taken};

    ghost sheets = { λ s. Some (sheets_at s.text.items s.starts.items s.unended) };

    ghost is_open = { λ s. s.unended };

    ghost press_faults = { λ s. s.faults };

    fn begin(&mut self, name: &str) -> Result<(), Failed>
        requires { has_unended self.old ≡ false }
        ensures counted { calls_made self.new ≡ next_count (calls_made self.old) }
        ensures same_fails { failing_calls self.new ≡ failing_calls self.old }
        ensures taken { IsOk result ↔
            (IsNone (next_failure self.old) × (0 < sheet_room self.old)
            × (length name.now ≤ byte_room self.old)) }
        ensures begun { OnOk result
            (press_sheets self.new ≡ with_begun name.now (press_sheets self.old)) }
        ensures open { OnOk result (has_unended self.new ≡ true) }
        ensures sheet_room { OnOk result (sheet_room self.new + 1 ≡ sheet_room self.old) }
        ensures byte_room { OnOk result
            (byte_room self.new + length name.now ≡ byte_room self.old) }
        ensures none { OnErr result ((press_sheets self.new ≡ press_sheets self.old)
            × (has_unended self.new ≡ false)) }
        ensures same_room { OnErr result ((sheet_room self.new ≡ sheet_room self.old)
            × (byte_room self.new ≡ byte_room self.old)) }
        ensures fault { OnErr result (calls_failed self.new ≡ next_count (calls_failed self.old)) }
        ensures no_fault { OnOk result (calls_failed self.new ≡ calls_failed self.old) }
        ensures count { calls_failed self.old ≤ calls_failed self.new }
    {
        self.calls = self.calls.saturating_add(1);
        let failure = failure_of(&self.fails, self.calls);
        if failure.is_some() || self.sheet_room == 0 || name.len() > self.byte_room {
            self.faults.raise();
            return Err(Failed);
        }
        self.start(name.as_bytes());
        Ok(())
    }

    fn write(&mut self, bytes: &[u8]) -> Result<(), Failed>
        requires { has_unended self.old ≡ true }
        ensures counted { calls_made self.new ≡ next_count (calls_made self.old) }
        ensures same_fails { failing_calls self.new ≡ failing_calls self.old }
        ensures taken { IsOk result ↔
            (IsNone (next_failure self.old) × (length bytes.now ≤ byte_room self.old)) }
        ensures whole { OnOk result
            (press_sheets self.new ≡ with_written bytes.now (press_sheets self.old)) }
        ensures front { let count = next_taken self.old (length bytes.now) in
            press_sheets self.new ≡ with_written (take count bytes.now) (press_sheets self.old) }
        ensures open { has_unended self.new ≡ true }
        ensures sheet_room { sheet_room self.new ≡ sheet_room self.old }
        ensures byte_room { byte_room self.new + next_taken self.old (length bytes.now)
            ≡ byte_room self.old }
        ensures fault { OnErr result (calls_failed self.new ≡ next_count (calls_failed self.old)) }
        ensures no_fault { OnOk result (calls_failed self.new ≡ calls_failed self.old) }
        ensures count { calls_failed self.old ≤ calls_failed self.new }
    {
        self.calls = self.calls.saturating_add(1);
        let failure = failure_of(&self.fails, self.calls);
        let taken = count_taken(failure, self.byte_room, bytes.len());
        self.add(&bytes[..taken]);
        if failure.is_some() || taken < bytes.len() {
            self.faults.raise();
            return Err(Failed);
        }
        Ok(())
    }

    fn end(&mut self) -> Result<(), Failed>
        requires { has_unended self.old ≡ true }
        ensures counted { calls_made self.new ≡ next_count (calls_made self.old) }
        ensures same_fails { failing_calls self.new ≡ failing_calls self.old }
        ensures taken { IsOk result ↔ IsNone (next_failure self.old) }
        ensures ended { OnOk result
            (press_sheets self.new ≡ with_ended (press_sheets self.old)) }
        ensures closed { OnOk result (has_unended self.new ≡ false) }
        ensures none { OnErr result ((press_sheets self.new ≡ press_sheets self.old)
            × (has_unended self.new ≡ true)) }
        ensures sheet_room { sheet_room self.new ≡ sheet_room self.old }
        ensures byte_room { byte_room self.new ≡ byte_room self.old }
        ensures fault { OnErr result (calls_failed self.new ≡ next_count (calls_failed self.old)) }
        ensures no_fault { OnOk result (calls_failed self.new ≡ calls_failed self.old) }
        ensures count { calls_failed self.old ≤ calls_failed self.new }
    {
        self.calls = self.calls.saturating_add(1);
        if failure_of(&self.fails, self.calls).is_some() {
            self.faults.raise();
            return Err(Failed);
        }
        self.unended = false;
        Ok(())
    }
}
