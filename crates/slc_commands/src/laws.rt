//! Laws of logical orders.
ghost use Rattle.std.specs.Prelude.{◌≡◌, ◌<◌, ◌^◌, ◌∷◌, [], ℕ, List, length, Ok, Err, All};
ghost use Rattle.df1_base.specs.declared.code.Code.TheVariants.{Sts};
ghost use Rattle.slc_commands.specs.declared.order.SlcFnc.TheVariants.{Masked};
ghost use Rattle.slc_commands.specs.Order.{IsOrder, Order, SpellsOrder, order_of};
ghost use Rattle.data_files.specs.WordBytes.{bytes_of, words_of};
ghost use Rattle.slc_commands.specs.Words.{masked, masked_word};

/// A payload encodes at most one order.
pub fn one_order()
    ensures { (order other : Order) (payload : List ℕ) → SpellsOrder order payload → SpellsOrder other payload → order ≡ other }
{}

/// The orders that `do_slc` requires are exactly those that some payload encodes.
pub fn orders_are_spelled()
    ensures spelled { (order : Order) → IsOrder order → (payload : List ℕ) × SpellsOrder order payload }
    ensures only { (order : Order) (payload : List ℕ) → SpellsOrder order payload → IsOrder order }
{}

/// A write without a mask replaces its words: with the mask FFFF each word is the new one.
pub fn all_bits_replace()
    ensures { (old new : List ℕ) → length old ≡ length new → All (λ word. word < 2 ^ 16) new → masked 0xFFFF old new ≡ new }
{}

/// Words that were written as bytes are read back unchanged.
pub fn bytes_are_words()
    ensures { (words : List ℕ) → words_of (bytes_of words) ≡ words }
{}

/// Orders of known payloads, and a masked write.
pub fn worked_values()
    ensures masked_write { order_of (0xAB ∷ 0x02 ∷ 0x07 ∷ 0x89 ∷ 0x00 ∷ 0x00 ∷ 0xFF ∷ 0x00 ∷ 0xCD ∷ 0xAB ∷ []) ≡ Ok (record { fnc = Masked; at = record { file = 7; kind = 0x89; element = 0; sub = 0 }; size = 2; mask = 0x00FF; bytes = 0xCD ∷ 0xAB ∷ [] }) }
    ensures cut_off { order_of (0xA2 ∷ 0x02 ∷ 0x07 ∷ 0x89 ∷ 0xFF ∷ []) ≡ Err (Sts 0x10) }
    ensures word { masked_word 0x00FF 0x1234 0xABCD ≡ 0x12CD }
{}
