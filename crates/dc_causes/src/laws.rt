// What follows from the form, for the crates above.

ghost use Rattle.std.specs.Prelude.{◌≡◌, ◌↔◌, ◌⊎◌, ◌≤◌, ◌<◌, ℕ, List, All, Result, Ok, Err};
ghost use Rattle.dc_causes.specs.Step.{Test, Reads, Then, Told, Traverse, Times};
ghost use Rattle.dc_causes.specs.Causes.{InOrder, Each, Least, Below, Rounds, IsFirstFault};
ghost use Rattle.dc_causes.specs.Answer.{Decided, IsSingle, IsExact};

/// Any facts and steps, of which the laws speak. Nothing is to be implemented here: a proof cites the lemmas of `proofs/`
/// at its own steps.
pub trait Parts {
    type Item;

    type Read;

    type Value;

    type Fault;

    ghost Fact: { Self.Item → Type 0 };

    ghost OfNumber: { ℕ → Type 0 };

    ghost fault: { ℕ → Self.Item → Self.Fault };

    ghost tell: { Self.Fault → Self.Fault };

    ghost First: { Result Self.Read Self.Fault → Type 0 };

    ghost Next: { Self.Read → Result Self.Value Self.Fault → Type 0 };

    ghost Visit: { ℕ → Self.Item → Result Self.Value Self.Fault → Type 0 };

    ghost Numbered: { ℕ → Result Self.Value Self.Fault → Type 0 };

    ghost Asked: { Self.Item → Result (Unit {0}) Self.Fault → Type 0 };

    ghost Round: { ℕ → Result (Unit {0}) Self.Fault → Type 0 };
}

/// A step that never has two answers reads one value or has one fault, and never both.
pub fn one_answer<P: Parts>()
    ensures one_reading { IsSingle P.First → (a b : P.Read) → P.First (Ok a) → P.First (Ok b) → a ≡ b }
    ensures no_fault { IsSingle P.First → (a : P.Read) (f : P.Fault) → P.First (Ok a) → P.First (Err f) → ⊥ }
    ensures one_fault { IsSingle P.First → (f g : P.Fault) → P.First (Err f) → P.First (Err g) → f ≡ g }
{}

/// What is put together of steps which never have two answers never has two.
pub fn parts_keep_one_answer<P: Parts>()
    ensures test { (x : P.Item) (f : P.Fault) → IsSingle (Test (P.Fact x) f) }
    ensures reads { (f : P.Fault) → ((x y : P.Item) → P.Fact x → P.Fact y → x ≡ y) → IsSingle (Reads P.Fact f) }
    ensures chain { IsSingle P.First → ((a : P.Read) → P.First (Ok a) → IsSingle (P.Next a)) → IsSingle (Then P.First P.Next) }
    ensures told { IsSingle P.First → IsSingle (Told P.tell P.First) }
    ensures traverse { ((k : ℕ) (x : P.Item) → IsSingle (P.Visit k x)) → (k : ℕ) (xs : List P.Item) → IsSingle (Traverse P.Visit k xs) }
    ensures times { ((k : ℕ) → IsSingle (P.Numbered k)) → (count : ℕ) → IsSingle (Times count P.Numbered) }
    ensures in_order { ((x : P.Item) → IsSingle (P.Asked x)) → (xs : List P.Item) → IsSingle (InOrder P.Asked xs) }
    ensures each { (xs : List P.Item) → IsSingle (Each P.Fact P.fault xs) }
    ensures least { (x : P.Item) → IsSingle (Least P.OfNumber (λ n. P.fault n x)) }
    ensures below { ((n : ℕ) → IsSingle (P.Round n)) → (bound : ℕ) → IsSingle (Below bound P.Round) }
    ensures rounds { ((n : ℕ) → IsSingle (P.Round n)) → IsSingle (Rounds P.Round) }
{}

/// What is put together of steps which have one answer each has one, where each fact that is asked holds or doesn't.
pub fn parts_keep_an_answer<P: Parts>()
    ensures test { (x : P.Item) (f : P.Fault) → Decided (P.Fact x) → IsExact (Test (P.Fact x) f) }
    ensures reads { (f : P.Fault) → Decided ((x : P.Item) × P.Fact x) → ((x y : P.Item) → P.Fact x → P.Fact y → x ≡ y) → IsExact (Reads P.Fact f) }
    ensures chain { IsExact P.First → ((a : P.Read) → P.First (Ok a) → IsExact (P.Next a)) → IsExact (Then P.First P.Next) }
    ensures told { IsExact P.First → IsExact (Told P.tell P.First) }
    ensures traverse { ((k : ℕ) (x : P.Item) → IsExact (P.Visit k x)) → (k : ℕ) (xs : List P.Item) → IsExact (Traverse P.Visit k xs) }
    ensures times { ((k : ℕ) → IsExact (P.Numbered k)) → (count : ℕ) → IsExact (Times count P.Numbered) }
    ensures in_order { ((x : P.Item) → IsExact (P.Asked x)) → (xs : List P.Item) → IsExact (InOrder P.Asked xs) }
    ensures each { ((x : P.Item) → Decided (P.Fact x)) → (xs : List P.Item) → IsExact (Each P.Fact P.fault xs) }
    ensures least { ((n : ℕ) → Decided (P.OfNumber n)) → (bound : ℕ) → ((n : ℕ) → P.OfNumber n → n < bound) → (x : P.Item) → IsExact (Least P.OfNumber (λ n. P.fault n x)) }
    ensures below { ((n : ℕ) → IsExact (P.Round n)) → (bound : ℕ) → IsExact (Below bound P.Round) }
    ensures rounds { ((n : ℕ) → IsExact (P.Round n)) → (bound : ℕ) → ((n : ℕ) → bound ≤ n → P.Round n (Ok tt)) → IsExact (Rounds P.Round) }
{}

/// Causes in their order are all passed, or one has the fault and each before it is passed.
pub fn first_fault_in_order<P: Parts>()
    ensures passed { (xs : List P.Item) → InOrder P.Asked xs (Ok tt) ↔ All (λ x. P.Asked x (Ok tt)) xs }
    ensures fault { (xs : List P.Item) (f : P.Fault) → InOrder P.Asked xs (Err f) ↔ IsFirstFault P.Asked xs f }
{}
