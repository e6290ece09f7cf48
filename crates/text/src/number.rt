// Numbers in decimal.
ghost use Rattle.std.specs.Prelude.{◌≤◌, length};
ghost use Rattle.text.specs.Scanning.{DigitsRead, NumberRead};

// The number that digits stand for, at most 19 of them; none where there is no digit, or a byte that is none.
pub fn digits_at(w: &[u8]) -> Option<usize>
    requires { length w.now ≤ 19 }
    ensures { DigitsRead w.now result }
{
    if w.is_empty() {
        return None;
    }
    let mut n: usize = 0;
    for b in w {
        if !b.is_ascii_digit() {
            return None;
        }
        n = n * 10 + (*b - b'0') as usize;
    }
    Some(n)
}

// The number that a word is, of one to seven digits.
pub fn number_at(w: &[u8]) -> Option<usize>
    ensures { NumberRead w.now result }
{
    if w.len() > 7 {
        return None;
    }
    digits_at(w)
}
