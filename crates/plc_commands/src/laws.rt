//! Laws of orders.
ghost use Rattle.std.specs.Prelude.{◌≡◌, ◌<◌, ◌∷◌, [], ℕ, List, slice_index, Ok, Err};
ghost use Rattle.df1_base.specs.declared.code.Code.TheVariants.{Sts, Ext};
ghost use Rattle.plc_commands.specs.Order.{Change, Order, Peek};
ghost use Rattle.plc_commands.specs.Spelling.{SpellsOrder};
ghost use Rattle.plc_commands.specs.Reading.{order_of};
ghost use Rattle.plc_commands.specs.Meaning.{changed_word};

/// A command encodes at most one order.
pub fn one_order()
    ensures { (order other : Order) (cmd : ℕ) (payload : List ℕ) → SpellsOrder order cmd payload → SpellsOrder other cmd payload → order ≡ other }
{}

/// An encoded order is read as that order, and an order that is read is encoded so.
pub fn spelled_orders_are_read()
    ensures read { (order : Order) (cmd : ℕ) (payload : List ℕ) → SpellsOrder order cmd payload → order_of cmd payload ≡ Ok order }
    ensures spelled { (order : Order) (cmd : ℕ) (payload : List ℕ) → ((i : ℕ) → slice_index payload i < 256) → order_of cmd payload ≡ Ok order → SpellsOrder order cmd payload }
{}

/// Orders of known payloads, and a word after a set.
pub fn worked_values()
    ensures unprotected_read { order_of 0x01 (0x20 ∷ 0x00 ∷ 0x02 ∷ []) ≡ Ok (Peek 32 2) }
    ensures read_modify_write { order_of 0x0F (0x26 ∷ 0x06 ∷ 0x07 ∷ 0x00 ∷ 0xFF ∷ 0x00 ∷ 0x00 ∷ 0x56 ∷ []) ≡ Ok (Change (record { at = record { area = 0; file = 7; element = 0; sub = 0 }; and = 0x00FF; or = 0x5600 } ∷ [])) }
    ensures too_few { order_of 0x0F (0x01 ∷ 0x00 ∷ 0x00 ∷ 0x01 ∷ 0x00 ∷ 0x02 ∷ 0x07 ∷ 0x02 ∷ []) ≡ Err (Ext 0x02) }
    ensures too_many { order_of 0x0F (0x01 ∷ 0x00 ∷ 0x00 ∷ 0x01 ∷ 0x00 ∷ 0x16 ∷ 0x07 ∷ 0x00 ∷ 0x02 ∷ []) ≡ Err (Ext 0x03) }
    ensures no_fnc { order_of 0x06 [] ≡ Err (Sts 0x10) }
    ensures word { changed_word (record { at = record { area = 0; file = 7; element = 0; sub = 0 }; and = 0x00FF; or = 0x5600 }) 0x1234 ≡ 0x5634 }
{}
