ghost use Rattle.std.specs.Prelude.{◌≡◌, ℕ, Bool, refl};
ghost use Rattle.terms.specs.declared.terms.Terms.{Terms};
ghost use Rattle.precedence.specs.Keys.{key_before};
ghost use Rattle.precedence.specs.Orders.{laws_by_key};

use crate::precedence::Precedence;
use terms::Terms;

// A rule by a key of the terms: the smaller key goes first, then the smaller number. It is a precedence rule.
pub trait Keyed {
    // The rule's fixed code.
    const CODE: u8;

    ghost CODE: { ℕ };

    ghost key: { Self → Terms → ℕ };

    ghost before: { Self → Terms → Terms → Bool };

    fn key(&self, terms: &Terms) -> u64
        ensures { result ≡ key self.now terms.now };

    ghost by_key: { (s : Self) (a b : Terms) → before s a b ≡ key_before (key s a) a.number (key s b) b.number };
}

impl<K: Keyed> Precedence for K {
    const CODE: u8 = K::CODE;

    ghost CODE = { K.CODE };

    ghost code = { K.CODE };

    ghost before = { K.before };

    ghost coded = { refl };

    ghost orders = { λ s. laws_by_key (K.before s) (K.key s) (K.by_key s) };

    fn goes_before(&self, a: &Terms, b: &Terms) -> bool {
        // by hand: pairs compared as pairs made `window` a third slower
        let (p, q) = (self.key(a), self.key(b));
        p < q || (p == q && a.number() < b.number())
    }
}
