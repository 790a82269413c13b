// A name by value, since a journal's words have no bytes to lend.
ghost use Rattle.std.specs.Prelude.{◌≤◌};

// The first `len` of `bytes`.
#[derive(Clone, Copy, Debug)]
pub struct Name {
    pub len: usize,
    pub bytes: [u8; 64],
    ghost short: { len ≤ 64 },
}

impl Name {
    ghost use Rattle.std.specs.Prelude.{◌≡◌};
    ghost use Rattle.journal.specs.Items.{name_in};

    // Its bytes.
    pub fn lent(&self) -> &[u8]
        ensures { result.now ≡ name_in self.now }
    {
        &self.bytes[..self.len]
    }
}

// By their bytes: what the arrays have behind them is no part of the names.
impl PartialEq for Name {
    ghost use Rattle.std.specs.Prelude.{nat_eq};
    ghost use Rattle.std.specs.Cmp.{on_per, partial_equiv_from_equiv};
    ghost use Rattle.std.proofs.lemmas.Cmp.{nat_list_eq_equiv};
    ghost use Rattle.std.specs.Cmp.Lexicographic.{pointwise};
    ghost use Rattle.journal.specs.Items.{name_in};

    ghost eq = { λ a b. pointwise nat_eq (name_in a) (name_in b) };

    ghost laws = { on_per name_in (partial_equiv_from_equiv nat_list_eq_equiv) };

    fn eq(&self, other: &Name) -> bool {
        self.lent() == other.lent()
    }
}

impl Eq for Name {
    ghost use Rattle.std.specs.Cmp.{on_equiv};
    ghost use Rattle.std.proofs.lemmas.Cmp.{nat_list_eq_equiv};
    ghost use Rattle.journal.specs.Items.{name_in};

    ghost laws = { on_equiv name_in nat_list_eq_equiv };
}
