//! Laws of values in data.
ghost use Rattle.std.specs.Prelude.{◌≡◌, ◌<◌, ◌*◌, ◌^◌, ◌∷◌, ◌++◌, [], ℕ, List, length, false, true, Some, None, codes};
ghost use Rattle.df1_base.specs.declared.file_type.FileType.{FileType};
ghost use Rattle.logical_address.specs.declared.param.Param.{Param};
ghost use Rattle.logical_address.specs.Parameter.{element_param, written_array};
ghost use Rattle.data_files.specs.WordBytes.{bytes_of};
ghost use Rattle.reply_values.specs.Reply.{reply_of};
ghost use Rattle.reply_values.specs.Typed.{typed_of};
ghost use Rattle.reply_values.specs.Texts.{status_text};
ghost use Rattle.reply_values.specs.Values.{float_words, floats_of};

/// A float that was written as its words is read back as the same float.
pub fn words_are_the_float()
    ensures { (bits : ℕ) → bits < 2 ^ 32 → floats_of (bytes_of (float_words bits)) ≡ bits ∷ [] }
{}

/// The data with which a station answers a typed read, the parameter of an array and the words, is read as these
/// elements.
pub fn typed_data_is_read()
    ensures { (kind : FileType) (count : ℕ) (element : Param) (array bytes : List ℕ) → element_param kind ≡ Some element → written_array kind count ≡ Some array → length bytes ≡ element.size * count → typed_of (array ++ bytes) ≡ Some (record { element = element; is_array = true; bytes = bytes }) }
{}

/// Replies of known bytes, and known codes.
pub fn worked_values()
    ensures read { reply_of (0x00 ∷ 0x01 ∷ 0x4F ∷ 0x00 ∷ 0x01 ∷ 0x00 ∷ 0x34 ∷ 0x12 ∷ []) ≡ Some (record { sts = 0; ext = 0; bytes = 0x34 ∷ 0x12 ∷ [] }) }
    ensures refused { reply_of (0x00 ∷ 0x01 ∷ 0x4F ∷ 0xF0 ∷ 0x01 ∷ 0x00 ∷ 0x0A ∷ []) ≡ Some (record { sts = 0xF0; ext = 0x0A; bytes = [] }) }
    ensures cut_off { reply_of (0x00 ∷ 0x01 ∷ 0x4F ∷ 0xF0 ∷ 0x01 ∷ 0x00 ∷ []) ≡ None }
    ensures integers { typed_of (0x99 ∷ 0x09 ∷ 0x05 ∷ 0x42 ∷ 0x34 ∷ 0x12 ∷ 0x78 ∷ 0x56 ∷ []) ≡ Some (record { element = record { kind = 4; size = 2 }; is_array = true; bytes = 0x34 ∷ 0x12 ∷ 0x78 ∷ 0x56 ∷ [] }) }
    ensures one_integer { typed_of (0x42 ∷ 0x34 ∷ 0x12 ∷ []) ≡ Some (record { element = record { kind = 4; size = 2 }; is_array = false; bytes = 0x34 ∷ 0x12 ∷ [] }) }
    ensures another_size { typed_of (0x99 ∷ 0x09 ∷ 0x06 ∷ 0x42 ∷ 0x34 ∷ 0x12 ∷ 0x78 ∷ 0x56 ∷ []) ≡ None }
    ensures one_and_a_half { floats_of (0x00 ∷ 0x00 ∷ 0xC0 ∷ 0x3F ∷ []) ≡ 0x3FC00000 ∷ [] }
    ensures past_the_end { status_text 0xF0 0x0A ≡ codes "the address or the range is past the end of the file" }
{}
