/// The built-in calls that aren't forms of their own.
#[derive(Clone, Copy, PartialEq, Eq)]
pub enum Native {
    /// `s.id()` on a Shred: its number.
    ShredId,
    /// `e.signal()` on an Event.
    Signal,
    /// `e.broadcast()` on an Event.
    Broadcast,
    /// `Machine.remove(n)`.
    Remove,
    /// `a.size()` on an array.
    Size,
    /// `a.clear()` on an array.
    Clear,
    /// `s.length()` on a string.
    Length,
    /// `s.charAt(i)` on a string.
    CharAt,
    /// `s.substring(from, count)` on a string.
    Substring,
    /// `Std.abs(n)`.
    Abs,
    /// `Std.fabs(x)`.
    Fabs,
    /// `Math.random2(a, b)`.
    Random2,
    /// `Math.random2f(a, b)`.
    Random2f,
    /// `Math.srandom(seed)`.
    Srandom,
    /// `u.keyOn()` on an envelope.
    KeyOn,
    /// `u.keyOff()` on an envelope.
    KeyOff,
    /// `u.keyOn(n)`: on where n isn't 0, else off.
    KeyOnWhere,
    /// `u.keyOff(n)`: off where n isn't 0, else on.
    KeyOffWhere,
    /// `u.set(attack, decay, sustain, release)` on an ADSR.
    SetAdsr,
}
