//! Groups in braces. A byte behind a backslash counts as none.
ghost use Rattle.std.specs.Prelude.{◌≡◌, ◌+◌, ◌<◌, ◌^◌, MatchOption, None, false};
ghost use Rattle.lb_model_aux.specs.Groups.{are_groups, group_of, to_close, turned};
ghost use Rattle.lb_aux.specs.Parts.{IsClosedAt, both};

// What is known behind a byte: whether the next one counts as none, and how many groups are open.
fn turned(behind: bool, level: usize, byte: u8) -> (bool, usize)
    requires some { 0 < level }
    requires room { level + 1 < 2 ^ 64 }
    ensures { result ≡ turned behind level byte }
{
    match byte {
        _ if behind => (false, level),
        b'\\' => (true, level),
        b'{' => (false, level + 1),
        b'}' => (false, level - 1),
        _ => (false, level),
    }
}

// The place of the brace that closes the group around a text.
fn place_of_close(text: &[u8]) -> Option<usize>
    ensures { MatchOption result (to_close false 1 text.now ≡ None) (λ at. IsClosedAt text.now at) }
{
    let mut behind = false;
    let mut level = 1;
    for (at, byte) in text.iter().enumerate() {
        (behind, level) = turned(behind, level, *byte);
        if level == 0 {
            return Some(at);
        }
    }
    None
}

/// The group at the front of a text: what stands in its braces, and what stands behind them.
pub fn group_of(text: &[u8]) -> Option<(&[u8], &[u8])>
    ensures { both result ≡ group_of text.now }
{
    match text {
        [b'{', rest @ ..] => {
            let at = place_of_close(rest)?;
            Some((&rest[..at], &rest[at + 1..]))
        }
        _ => None,
    }
}

/// Whether a text has groups alone, one behind another.
pub fn are_groups(text: &[u8]) -> bool
    ensures { result ≡ are_groups false 0 text.now }
{
    let mut behind = false;
    let mut level = 0;
    for byte in text {
        if level == 0 {
            if *byte != b'{' {
                return false;
            }
            level = 1;
        } else {
            (behind, level) = turned(behind, level, *byte);
        }
    }
    level == 0
}
