// Whether the rows of a group concur.
ghost use Rattle.std.specs.Prelude.{◌≡◌, true, [], ◌∷◌, ◌++◌};
ghost use Rattle.card.specs.Rows.{Concur};

// Whether each place has digit 1 in none of the group's rows and `row`, in just one, or in all of them.
pub(crate) fn concurs(group: &[u64], row: u64) -> bool
    ensures only { result ≡ true → Concur (group.now ++ row ∷ []) }
    ensures every { Concur (group.now ++ row ∷ []) → result ≡ true }
{
    let mut seen = row;
    let mut many = 0;
    let mut all = row;
    for other in group {
        many |= seen & *other;
        seen |= *other;
        all &= *other;
    }
    many & all == many
}
