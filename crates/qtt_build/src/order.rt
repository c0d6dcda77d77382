//! The modules of a build by their names.

ghost use Rattle.std.specs.Prelude.{◌≡◌, ◌<◌, ◌^◌, false, None, find, length, map, IfSome, option_map};
ghost use Rattle.std.specs.List.{list_any};
ghost use Rattle.qtt_module.specs.TextCalls.{accepted_of};
ghost use Rattle.qtt_build.specs.Built.{is_named};
ghost use Rattle.qtt_build.specs.Answer.{StandsAt};

use qtt_base::Name;
use qtt_module::Checked;

/// The module of this name.
pub fn module_named<'o>(order: &'o [Checked], name: &Name) -> Option<&'o Checked>
    ensures { option_map (λ c. accepted_of c.now) result
        ≡ find (is_named name.now) (map accepted_of order.now) }
{
    for checked in order {
        if checked.exports.name == *name {
            return Some(checked);
        }
    }
    None
}

/// The place of the module of this name.
pub(crate) fn place(order: &[Checked], name: &Name) -> Option<u32>
    requires { length order.now < 2 ^ 32 }
    ensures some { IfSome result (StandsAt (map accepted_of order.now) name.now) }
    ensures none { result ≡ None →
        list_any (is_named name.now) (map accepted_of order.now) ≡ false }
{
    let mut place = 0;
    for checked in order {
        if checked.exports.name == *name {
            return Some(place);
        }
        place += 1;
    }
    None
}
