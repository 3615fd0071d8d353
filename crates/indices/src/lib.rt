// One byte of a pass over a term, which reads its bytes once, forward, with a stack of scopes in place of recursion.
#![tactic(auto)]

ghost use Rattle.std.specs.Prelude.{◌≡◌, ◌<◌};
ghost use Rattle.indices.specs.Stack.{body_scope, StackReady, Advanced};

// The parts of a term that are still to be read: the abstractors in scope at the one being read, and how many they are.
#[derive(Drop)]
pub struct Parts {
    pub scope: usize,
    pub count: usize,
}

// Kept: `as`, since Rust has no From here; the clause keeps scope + 1 below 65,536.
// How many abstractors are in scope at the second part of an applicator or an abstractor.
#[tactic(auto, unfolding(crate::specs::Stack::body_scope))]
fn body_scope(b: u8, scope: usize) -> u16
    requires { scope < 65535 }
    ensures { result ≡ body_scope b scope }
{
    if b == 0xff {
        (scope + 1) as u16
    } else {
        scope as u16
    }
}

// The parts after the byte b. The stack holds the scopes of those after the one being read.
pub fn advance(stack: &mut [u16], scope: usize, count: usize, b: u8) -> Parts
    requires { StackReady stack.old scope count }
    ensures { Advanced stack.old stack.new scope count result.scope result.count b }
{
    if b < 0xfe {
        return Parts {
            scope: usize::from(stack[count - 1]),
            count: count - 1,
        };
    }
    stack[count] = body_scope(b, scope);
    Parts {
        scope,
        count: count + 1,
    }
}
