// What is known of each place of a term's own text. Its bytes are read from the left only, into letters.
#![tactic(auto)]

ghost use Rattle.std.specs.Prelude.{◌≡◌, ◌<◌, ◌≤◌, length};
ghost use Rattle.code.specs.Limits.{longest_term};
ghost use Rattle.texts.specs.Texts.{Sized, Depths, WholeTerm};
ghost use Rattle.texts.specs.Clauses.{Measurable, ExtentAt, Notable, DepthsNoted};

use code::numbers::MOST_ABSTRACTORS;
use letters::{APPLICATOR, Letters, depth_of, read, symbol_of};

// The size and the scope of a term.
#[derive(Drop)]
pub struct Extent {
    pub size: usize,
    pub scope: usize,
}

// Those of the term that starts at i, where those of all later ones are known.
fn extent_at(letters: &Letters, sizes: &[u16], scopes: &[u16], i: usize) -> Extent
    requires { Measurable letters.now sizes.now scopes.now i }
    ensures { ExtentAt letters.now sizes.now scopes.now i result }
{
    let symbol = symbol_of(letters[i]);
    if symbol < APPLICATOR {
        return Extent { size: 1, scope: 0 };
    }
    let a = usize::from(sizes[i + 1]);
    let m = i + 1 + a;
    let x = usize::from(scopes[i + 1]);
    let c = usize::from(sizes[m]);
    let y = usize::from(scopes[m]);
    let size = 1 + a + c;
    if symbol == APPLICATOR {
        return Extent {
            size,
            scope: x.max(y),
        };
    }
    Extent {
        size,
        scope: x.max(y + 1),
    }
}

// The depths of the first n letters.
fn note_depths(letters: &Letters, n: usize, depths: &mut [u8])
    requires { Notable letters.now depths.old n }
    ensures { DepthsNoted letters.now depths.old depths.new n }
{
    // Kept: `as` here and in `measure`, since Rust has no From here; a depth is at most 253, a size and a scope at most 4,096.
    for i in 0..n {
        depths[i] = depth_of(letters[i]) as u8;
    }
}

// The size and the scope of each term that stands in t, and the depth of each place, from its letters, which are read into a lent array.
pub fn measure(
    t: &[u8],
    letters: &mut Letters,
    sizes: &mut [u16],
    scopes: &mut [u16],
    depths: &mut [u8],
)
    requires { WholeTerm t.now × (length t.now ≤ length sizes.old) × (length t.now ≤ length scopes.old) × (length t.now ≤ length depths.old) }
    ensures { Sized t.now sizes.new scopes.new × (length letters.new ≡ longest_term) × (length sizes.new ≡ length sizes.old) × (length scopes.new ≡ length scopes.old) × Depths t.now depths.new × (length depths.new ≡ length depths.old) }
{
    let n = t.len();
    read(t, 0, 0, 0, MOST_ABSTRACTORS, letters, 0);
    note_depths(letters, n, depths);
    for i in (0..n).rev() {
        let v = extent_at(letters, sizes, scopes, i);
        sizes[i] = v.size as u16;
        scopes[i] = v.scope as u16;
    }
}
