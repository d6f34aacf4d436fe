//! Laws of the table of keys.
ghost use Rattle.std.specs.Prelude.{◌≡◌, Some, map, IsSorted};
ghost use Rattle.std.specs.Cmp.Lexicographic.{slice_cmp};
ghost use Rattle.std.specs.Ordering.{nat_cmp};
ghost use Rattle.end_settings.specs.declared.key.EndKey.{EndKey as OneKey};
ghost use Rattle.end_settings.specs.Table.{key_named, keys, row_of};

/// Each key is found by its name, so no two have the same name, and all are in the order of the names' bytes.
pub fn each_key_has_its_name()
    ensures found { (key : OneKey) → key_named (row_of key).name ≡ Some key }
    ensures in_order { IsSorted (slice_cmp nat_cmp) (map (λ key. (row_of key).name) keys) }
{}
