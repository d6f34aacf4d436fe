//! Laws of payloads.
ghost use Rattle.std.specs.Prelude.{◌≡◌, ◌<◌, ◌≤◌, ◌^◌, ◌==◌, ◌∷◌, [], ℕ, Bool, true, false, List, drop, length, slice_index, if◌then◌else◌, None, Ok, Option, Some, All};
ghost use Rattle.std.specs.Int.{bit_at};
ghost use Rattle.df1_base.specs.declared.code.Code.TheVariants.{Done};
ghost use Rattle.df1_base.specs.declared.file_type.FileType.TheVariants.{Float, Integer, Timer};
ghost use Rattle.plc_commands.specs.Order as plc;
ghost use Rattle.plc_commands.specs.Spelling.{cmd_byte};
ghost use Rattle.plc_commands.specs.Reading as plc_reading;
ghost use Rattle.plc_commands.specs.Meaning.{changed_word};
ghost use Rattle.plc_commands.specs.Meaning as plc_meaning;
ghost use Rattle.slc_commands.specs.Order as slc;
ghost use Rattle.slc_commands.specs.Meaning as slc_meaning;
ghost use Rattle.data_files.specs.Tables.{DataTables, with_words, words_at};
ghost use Rattle.data_files.specs.WordBytes.{words_of};
ghost use Rattle.data_addresses.specs.declared.address.Address.{Address as Place};
ghost use Rattle.command_payloads.specs.Orders.{SpellsPlc, SpellsSlc, bit_set, logical_read_order, logical_write_order, word_range_read_order, word_range_write_order};
ghost use Rattle.command_payloads.specs.Words.{index_of};
ghost use Rattle.command_payloads.specs.Payloads.{bit_payload, logical_read_payload, logical_write_payload, masked_write_payload, typed_read_payload, typed_write_payload, unprotected_write_payload, word_range_read_payload, word_range_write_payload};

/// A station reads a payload as the order that it encodes, and so as no other.
pub fn payloads_are_read()
    ensures plc { (order : plc.Order) (payload : List ℕ) → SpellsPlc order payload → plc_reading.order_of (cmd_byte order) (drop 1 payload) ≡ Ok order }
    ensures slc { (order : slc.Order) (payload : List ℕ) → SpellsSlc order payload → slc.order_of (drop 1 payload) ≡ Ok order }
{}

/// A payload begins with a CMD whose bit 6 is clear, so it is that of a command and not of a reply.
pub fn payloads_are_commands()
    ensures plc { (order : plc.Order) (payload : List ℕ) → SpellsPlc order payload → (1 ≤ length payload) × ((bit_at (slice_index payload 0) 6 == 1) ≡ false) }
    ensures slc { (order : slc.Order) (payload : List ℕ) → SpellsSlc order payload → (1 ≤ length payload) × ((bit_at (slice_index payload 0) 6 == 1) ≡ false) }
{}

/// A station that executes the order of a read returns the words at its address. One that executes the order of a write
/// of words makes these words the ones written.
pub fn words_at_an_address_are_read_and_written()
    ensures word_range_read { (tables : DataTables) (compat : Option ℕ) (block : List ℕ) (at : Place) (count : ℕ) → (plc_meaning.meaning tables compat block (word_range_read_order at count)).code ≡ Done →
        words_of (plc_meaning.meaning tables compat block (word_range_read_order at count)).reply ≡ words_at tables at.file (index_of tables.specs at) count }
    ensures word_range_write { (tables : DataTables) (compat : Option ℕ) (block : List ℕ) (at : Place) (words : List ℕ) → (plc_meaning.meaning tables compat block (word_range_write_order at words)).code ≡ Done →
        (plc_meaning.meaning tables compat block (word_range_write_order at words)).tables ≡ with_words tables at.file (index_of tables.specs at) words }
    ensures logical_read { (tables : DataTables) (with_sub : Bool) (at : Place) (count : ℕ) → (slc_meaning.meaning tables (logical_read_order with_sub at count)).code ≡ Done →
        words_of (slc_meaning.meaning tables (logical_read_order with_sub at count)).reply ≡ words_at tables at.file (index_of tables.specs at) count }
    ensures logical_write { (tables : DataTables) (with_sub : Bool) (at : Place) (words : List ℕ) → All (λ word. word < 2 ^ 16) words → (slc_meaning.meaning tables (logical_write_order with_sub at words)).code ≡ Done →
        (slc_meaning.meaning tables (logical_write_order with_sub at words)).tables ≡ with_words tables at.file (index_of tables.specs at) words }
{}

/// The order that sets or clears a bit of a word makes this bit what was requested, and leaves the others unchanged.
pub fn one_bit_is_written()
    ensures { (at : Place) (bit old i : ℕ) (on : Bool) → bit ≤ 15 → i ≤ 15 → bit_at (changed_word (bit_set at bit on) old) i ≡ (if i == bit then (if on then 1 else 0) else bit_at old i) }
{}

/// Payloads of known commands.
pub fn worked_values()
    ensures logical_read { logical_read_payload true (record { kind = Integer; file = 7; element = 16; sub = 0; bit = None }) 1 ≡ 0x0F ∷ 0xA2 ∷ 0x02 ∷ 0x07 ∷ 0x89 ∷ 0x10 ∷ 0x00 ∷ [] }
    ensures logical_write { logical_write_payload false (record { kind = Integer; file = 7; element = 2; sub = 0; bit = None }) (0xABCD ∷ []) ≡ 0x0F ∷ 0xA9 ∷ 0x02 ∷ 0x07 ∷ 0x89 ∷ 0x02 ∷ 0xCD ∷ 0xAB ∷ [] }
    ensures masked_write { masked_write_payload (record { kind = Integer; file = 7; element = 0; sub = 0; bit = None }) 0x00FF (0xABCD ∷ []) ≡ 0x0F ∷ 0xAB ∷ 0x02 ∷ 0x07 ∷ 0x89 ∷ 0x00 ∷ 0x00 ∷ 0xFF ∷ 0x00 ∷ 0xCD ∷ 0xAB ∷ [] }
    ensures word_range_read { word_range_read_payload (record { kind = Integer; file = 7; element = 0; sub = 0; bit = None }) 2 ≡ 0x0F ∷ 0x01 ∷ 0x00 ∷ 0x00 ∷ 0x02 ∷ 0x00 ∷ 0x06 ∷ 0x07 ∷ 0x00 ∷ 0x04 ∷ [] }
    ensures accumulator { word_range_write_payload (record { kind = Timer; file = 4; element = 1; sub = 2; bit = None }) (7 ∷ []) ≡ 0x0F ∷ 0x00 ∷ 0x00 ∷ 0x00 ∷ 0x01 ∷ 0x00 ∷ 0x0E ∷ 0x04 ∷ 0x01 ∷ 0x02 ∷ 0x07 ∷ 0x00 ∷ [] }
    ensures typed_read { typed_read_payload (record { kind = Float; file = 8; element = 0; sub = 0; bit = None }) 1 ≡ 0x0F ∷ 0x68 ∷ 0x00 ∷ 0x00 ∷ 0x01 ∷ 0x00 ∷ 0x06 ∷ 0x08 ∷ 0x00 ∷ 0x01 ∷ 0x00 ∷ [] }
    ensures typed_write { typed_write_payload (record { kind = Integer; file = 7; element = 0; sub = 0; bit = None }) (0xABCD ∷ 1 ∷ []) ≡ 0x0F ∷ 0x67 ∷ 0x00 ∷ 0x00 ∷ 0x02 ∷ 0x00 ∷ 0x06 ∷ 0x07 ∷ 0x00 ∷ 0x99 ∷ 0x09 ∷ 0x05 ∷ 0x42 ∷ 0xCD ∷ 0xAB ∷ 0x01 ∷ 0x00 ∷ [] }
    ensures bit { bit_payload (record { kind = Integer; file = 7; element = 3; sub = 0; bit = Some 5 }) 5 true ≡ 0x0F ∷ 0x26 ∷ 0x06 ∷ 0x07 ∷ 0x03 ∷ 0xDF ∷ 0xFF ∷ 0x20 ∷ 0x00 ∷ [] }
    ensures unprotected_write { unprotected_write_payload 2 (0xABCD ∷ []) ≡ 0x08 ∷ 0x02 ∷ 0x00 ∷ 0xCD ∷ 0xAB ∷ [] }
{}
