//! Laws of the orders of every transfer, and of their result.
ghost use Rattle.std.specs.Prelude.{◌≡◌, ◌+◌, ◌*◌, ◌/◌, ◌<◌, ◌≤◌, ◌↔◌, ℕ, List, drop, length, Option, Some, None, Ok, IsTrue};
ghost use Rattle.plc_commands.specs.Order.{RangeRead, RangeWrite, window};
ghost use Rattle.plc_commands.specs.Reading.{order_of};
ghost use Rattle.bulk_orders.specs.declared.outcome.Bulk.{Bulk as Came};
ghost use Rattle.bulk_orders.specs.Orders.{data_of_order, data_of_orders, first_word, is_order, orders_of, pull_payload, push_payload, start_of, words_of_order};
ghost use Rattle.bulk_orders.specs.Outcomes.{first_fault, number_of};

/// A law: to a station each order of a pull is a word range read of the order's words, and each order of a push a word
/// range write of them.
pub fn orders_are_word_ranges()
    ensures reads { (file words j : ℕ) → order_of 0x0F (drop 1 (pull_payload file words j)) ≡ Ok (RangeRead (window (first_word j) words (start_of file)) (2 * words_of_order words j)) }
    ensures writes { (file : ℕ) (bytes : List ℕ) (j : ℕ) → length bytes ≡ 2 * (length bytes / 2) → IsTrue (is_order (length bytes / 2) j) →
        order_of 0x0F (drop 1 (push_payload file bytes j)) ≡ Ok (RangeWrite (window (first_word j) (length bytes / 2) (start_of file)) (data_of_order bytes j)) }
{}

/// A law: the orders that write have all of the data, each byte once and in order.
pub fn orders_have_all_data()
    ensures { (bytes : List ℕ) → length bytes ≡ 2 * (length bytes / 2) → data_of_orders bytes (orders_of (length bytes / 2)) ≡ bytes }
{}

/// A law: the fault that is reported of a transfer is that of the command with the lowest number that has one, and none
/// is reported if no command has one.
pub fn the_lowest_fault_is_told()
    ensures none { (fault : ℕ → Option Came) (count : ℕ) → first_fault fault count ≡ None ↔ ((n : ℕ) → 1 ≤ n → n ≤ count → fault n ≡ None) }
    ensures lowest { (fault : ℕ → Option Came) (count : ℕ) (came : Came) → first_fault fault count ≡ Some came →
        (n : ℕ) × (1 ≤ n) × (n ≤ count) × (fault n ≡ Some came) × ((k : ℕ) → 1 ≤ k → k < n → fault k ≡ None) }
{}

/// A law: the commands that carry the orders of a transfer have consecutive numbers from its first command on.
pub fn orders_are_numbered_from_the_first()
    ensures { (first j : ℕ) → 1 ≤ first → 1 ≤ j → number_of first j + 1 ≡ first + j }
{}
