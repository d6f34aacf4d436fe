//! Laws of encodings.
ghost use Rattle.std.specs.Prelude.{◌≡◌, ◌≤◌, ◌<◌, ◌^◌, ◌++◌, ◌∷◌, [], ℕ, Bool, true, false, List, length, Ok, Some, None};
ghost use Rattle.logical_address.specs.declared.levels.Levels.{Levels};
ghost use Rattle.logical_address.specs.declared.three.Three.{Three};
ghost use Rattle.logical_address.specs.declared.param.Param.{Param};
ghost use Rattle.logical_address.specs.Spelling.{IsShortest, SpellsLevels, SpellsParam, SpellsThree, SpellsValue};
ghost use Rattle.logical_address.specs.Shortest.{shortest_levels, shortest_three, shortest_value};
ghost use Rattle.logical_address.specs.Reading.{levels_at, three_at, value_at};
ghost use Rattle.logical_address.specs.Parameter.{written_array};
ghost use Rattle.df1_base.specs.declared.file_type.FileType.TheVariants.{Float, Integer, Timer};

/// Bytes begin with at most one encoding, and it is of one value.
pub fn one_spelling()
    ensures value { (m n : ℕ) (front other rest others : List ℕ) → SpellsValue m front → SpellsValue n other → front ++ rest ≡ other ++ others → (front ≡ other) × (m ≡ n) }
    ensures three { (with_sub : Bool) (at to : Three) (front other rest others : List ℕ) → SpellsThree with_sub at front → SpellsThree with_sub to other → front ++ rest ≡ other ++ others → (front ≡ other) × (at ≡ to) }
    ensures levels { (at to : Levels) (front other rest others : List ℕ) → SpellsLevels at front → SpellsLevels to other → front ++ rest ≡ other ++ others → (front ≡ other) × (at ≡ to) }
    ensures param { (p q : Param) (front other rest others : List ℕ) → SpellsParam p front → SpellsParam q other → front ++ rest ≡ other ++ others → (front ≡ other) × (p ≡ q) }
{}

/// What is written is an encoding of the value to be written, and no encoding of it is shorter.
pub fn shortest_is_shortest()
    ensures value { (n : ℕ) → IsShortest (SpellsValue n) (shortest_value n) }
    ensures three { (with_sub : Bool) (at : Three) → (with_sub ≡ false → at.sub ≡ 0) → IsShortest (SpellsThree with_sub at) (shortest_three with_sub at) }
    ensures levels { (at : Levels) → IsShortest (SpellsLevels at) (shortest_levels at) }
{}

/// What was written is read back, whatever follows it.
pub fn written_is_read()
    ensures value { (n : ℕ) (rest : List ℕ) → value_at (shortest_value n ++ rest) ≡ Some (n, length (shortest_value n)) }
    ensures three { (with_sub : Bool) (at : Three) (rest : List ℕ) → (with_sub ≡ false → at.sub ≡ 0) → three_at with_sub (shortest_three with_sub at ++ rest) ≡ Some (at, length (shortest_three with_sub at)) }
    ensures levels { (at : Levels) (rest : List ℕ) → levels_at (shortest_levels at ++ rest) ≡ Ok (at, length (shortest_levels at)) }
{}

/// Addresses and parameters of known bytes.
pub fn worked_values()
    ensures wide_value { value_at (0xFF ∷ 0x05 ∷ 0x00 ∷ []) ≡ Some (5, 3) }
    ensures cut_value { value_at (0xFF ∷ 0x05 ∷ []) ≡ None }
    ensures element_255 { shortest_value 255 ≡ 0xFF ∷ 0xFF ∷ 0x00 ∷ [] }
    ensures integers { written_array Integer 2 ≡ Some (0x99 ∷ 0x09 ∷ 0x05 ∷ 0x42 ∷ []) }
    ensures floats { written_array Float 1 ≡ Some (0x99 ∷ 0x09 ∷ 0x06 ∷ 0x94 ∷ 0x08 ∷ []) }
    ensures timers { written_array Timer 1 ≡ None }
{}
