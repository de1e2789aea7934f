// Notes of the sizes of elements, made by the pass that checks a section.
ghost use Rattle.std.specs.Prelude.{◌≡◌, ◌≤◌, length};
ghost use Rattle.section.specs.Sizes.{in_step, NotedAt, NotedIs};

use crate::heads::PARENT;
use wire::bytes::lacks;

// Whether the element of a token is passed by its step, and not noted.
pub(crate) fn is_stepped(step: usize, token: u8) -> bool
    ensures { result ≡ in_step step token }
{
    step != 0 && token == PARENT
}

// Notes the size of an element at `i`, a 0 behind it, and answers where the next one goes. What can't be noted ends the notes.
pub(crate) fn note(sizes: &mut [u8], i: usize, size: usize, stepped: bool) -> usize
    requires { (length sizes.old ≤ 16777216) × (i ≤ length sizes.old) }
    ensures { NotedAt sizes.old sizes.new i size stepped result }
{
    if stepped {
        return i;
    }
    if i + 3 < sizes.len() {
        if size < 255 {
            sizes[i] = size as u8;
            sizes[i + 1] = 0;
            return i + 1;
        }
        if size < 65_536 {
            // Kept: four stores; a copy of an array of four is no shorter.
            sizes[i] = 255;
            sizes[i + 1] = (size / 256) as u8;
            sizes[i + 2] = (size % 256) as u8;
            sizes[i + 3] = 0;
            return i + 3;
        }
    }
    sizes.len()
}

// A size that was noted, and where the next one is.
#[derive(Clone, Copy)]
pub(crate) struct Size {
    pub(crate) bytes: usize,
    pub(crate) next: usize,
}

// The size that is noted at `i`; a 0 says that none is.
#[tactic(auto, using(crate::proofs::Noting::read_stepped, crate::proofs::Noting::read_none, crate::proofs::Noting::read_zero, crate::proofs::Noting::read_one, crate::proofs::Noting::read_three, wire::proofs::Laws::enough_le, wire::proofs::Laws::lacked_lt))]
pub(crate) fn noted_at(sizes: &[u8], i: usize, stepped: bool) -> Option<Size>
    ensures { NotedIs sizes.now i stepped result }
{
    if stepped || lacks(sizes.len(), i, 3) || sizes[i] == 0 {
        return None;
    }
    if sizes[i] < 255 {
        return Some(Size {
            bytes: usize::from(sizes[i]),
            next: i + 1,
        });
    }
    Some(Size {
        bytes: 256 * usize::from(sizes[i + 1]) + usize::from(sizes[i + 2]),
        next: i + 3,
    })
}
