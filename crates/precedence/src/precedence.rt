ghost use Rattle.std.specs.Prelude.{◌≡◌, ℕ, Bool};
ghost use Rattle.terms.specs.declared.terms.Terms.{Terms};
ghost use Rattle.precedence.specs.Laws.{Laws};

use terms::Terms;

// A precedence rule. What it means is the relation `before`; generic code may use of it
// only the laws, that asking tells it exactly, and its code.
pub trait Precedence {
    // The rule's fixed code, which stands in the head of a plan file.
    const CODE: u8;

    // `CODE` as clauses name a constant.
    ghost CODE: { ℕ };

    // The code as the contracts of callers name it.
    ghost code: { ℕ };

    // Whether the job of the first terms goes before that of the second.
    ghost before: { Self → Terms → Terms → Bool };

    fn goes_before(&self, a: &Terms, b: &Terms) -> bool
        ensures { result ≡ before self.now a.now b.now };

    final fn its_code() -> u8
        ensures { result ≡ code }
    {
        Self::CODE
    }

    ghost coded: { CODE ≡ code };

    ghost orders: { (s : Self) → Laws (before s) };
}
