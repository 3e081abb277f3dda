// Whose entries are frozen.
ghost use Rattle.std.specs.Prelude.{◌≡◌};
ghost use Rattle.frozen_state.specs.Forms.{is_owner as is_owner_of};

/// Whose entries they are.
#[derive(Clone, Copy, Debug, PartialEq, Eq)]
pub enum Owner {
    /// Those of the input.
    In,
    /// Those of the node of that number.
    Node(u64),
    /// Those of the output.
    Out,
}

/// Whether they are the same.
pub fn is_owner(a: Owner, b: Owner) -> bool
    ensures { result ≡ is_owner_of a b }
{
    match (a, b) {
        (Owner::In, Owner::In) => true,
        (Owner::Out, Owner::Out) => true,
        (Owner::Node(one), Owner::Node(other)) => one == other,
        _ => false,
    }
}
