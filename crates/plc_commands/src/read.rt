//! Reading of orders.
ghost use Rattle.std.specs.Prelude.{◌≡◌, ◌≤◌, length, true, IfOk, IfErr, Ok};
ghost use Rattle.std.specs.Result.{result_map_both};
ghost use Rattle.plc_commands.specs.Order.{IsOrder, Order, seen};
ghost use Rattle.plc_commands.specs.Spelling.{SpellsOrder};
ghost use Rattle.plc_commands.specs.Reading.{is_reading_code, order_of};

use crate::PlcOrder;
use crate::codes::ILLEGAL;
use crate::fields::{all, last_byte, last_word, levels, nothing, parameter, sets, word, words};
use df1_base::Code;

/// Layouts of commands, one per row: the first bytes of a command, its order, its fields in order, and its last field,
/// which is all remaining bytes.
macro_rules! layouts {
    (
        $command:expr, $left:ident;
        $($begins:pat => $order:expr, [$($field:pat = $front:ident),*] $last:pat = $whole:ident;)*
    ) => {
        match $command {
            $($begins => {
                $(let ($field, $left) = $front($left)?;)*
                let $last = $whole($left)?;
                Ok($order)
            })*
            _ => Err(ILLEGAL),
        }
    };
}

/// Reads the order of a command, whose payload is the bytes after TNS, at most 244 (manual topic: commands).
///
/// The order is refused by the first field that can't be read: an address with too few levels with F0/02, one with too
/// many with F0/03, and everything else, including another CMD or FNC or a missing FNC, with STS 10.
pub fn read_plc(cmd: u8, payload: &[u8]) -> Result<PlcOrder<'_>, Code>
    requires { length payload.now ≤ 244 }
    ensures reads { result_map_both seen (λ code. code) result ≡ order_of cmd payload.now }
    ensures spelled { IfOk result (λ order. SpellsOrder (seen order) cmd payload.now) }
    ensures known { (order : Order) → SpellsOrder order cmd payload.now → result_map_both seen (λ code. code) result ≡ Ok order }
    ensures order { IfOk result (λ order. IsOrder (seen order)) }
    ensures refused { IfErr result (λ code. is_reading_code code ≡ true) }
{
    read_by_layout(cmd, payload)
}

/// Returns the order of a command, by the layout that matches its first bytes.
#[tactic(auto, unfolding(crate::specs::Reading::unprotected_read, crate::specs::Reading::unprotected_write, crate::specs::Reading::range_write, crate::specs::Reading::range_read, crate::specs::Reading::change, crate::specs::Reading::typed_write, crate::specs::Reading::typed_read))]
fn read_by_layout(cmd: u8, payload: &[u8]) -> Result<PlcOrder<'_>, Code>
    requires { length payload.now ≤ 244 }
    ensures reads { result_map_both seen (λ code. code) result ≡ order_of cmd payload.now }
    ensures order { IfOk result (λ order. IsOrder (seen order)) }
{
    use PlcOrder::{
        Change, Echo, Peek, Poke, RangeRead, RangeWrite, Status, TypedRead, TypedWrite,
    };
    layouts! {
        (cmd, payload), left;
        (0x06, [0x00, left @ ..]) => Echo(bytes), [] bytes = all;
        (0x06, [0x03, left @ ..]) => Status, [] () = nothing;
        (0x01, left) => Peek { address, size }, [address = word] size = last_byte;
        (0x08, left) => Poke { address, bytes }, [address = word] bytes = words;
        (0x0F, [0x00, left @ ..]) => RangeWrite { offset, total, at, bytes },
            [offset = word, total = word, at = levels] bytes = words;
        (0x0F, [0x01, left @ ..]) => RangeRead { offset, total, at, size },
            [offset = word, total = word, at = levels] size = last_byte;
        (0x0F, [0x26, left @ ..]) => Change(changes), [] changes = sets;
        (0x0F, [0x67, left @ ..]) => TypedWrite { offset, total, at, element, array, bytes },
            [offset = word, total = word, at = levels, (element, array) = parameter] bytes = all;
        (0x0F, [0x68, left @ ..]) => TypedRead { offset, total, at, count },
            [offset = word, total = word, at = levels] count = last_word;
    }
}
