//! Which values are live, told of any.

ghost use Rattle.std.specs.Prelude.{◌≡◌};
ghost use Rattle.std.specs.List.{list_all, list_any};
ghost use Rattle.std.specs.Str.{bytes_eq};
ghost use Rattle.ns_code.specs.Selector.{is_selector_number};
ghost use Rattle.ns_machine.specs.Living.{is_live_value};

use ns_base::selector::Sel;
use ns_base::text::Text;
use ns_code::program::CodeProgram;
use ns_code::selector::own_text_at;
use ns_world::value::Value;
use ns_world::world::World;

/// How many selectors the machine sends by itself.
const OWN_SELECTORS: usize = 3;

/// Whether a value is live: a symbol is that of a selector, and a reference that of a cell which is no environment. Any other
/// value is.
pub fn is_live(world: &World, code: &CodeProgram, value: Value) -> bool
    ensures { result ≡ is_live_value world.now.world.cells code.now value }
{
    match value {
        Value::Sym(sel) => is_selector(code, sel),
        _ => world.is_receiver(value),
    }
}

/// Whether all of these values are live.
pub fn are_live(world: &World, code: &CodeProgram, values: &[Value]) -> bool
    ensures { result ≡ list_all (is_live_value world.now.world.cells code.now) values.now }
{
    values.iter().all(|value| is_live(world, code, *value))
}

/// Whether a selector is a name of the code, or one that the machine sends by itself and the code doesn't name.
fn is_selector(code: &CodeProgram, sel: Sel) -> bool
    ensures { result ≡ is_selector_number code.now sel.0 }
{
    let names = code.names.as_slice();
    let number = sel.0 as usize;
    if number < names.len() {
        return true;
    }
    let own = number - names.len();
    own < OWN_SELECTORS && !is_among(names, own_text_at(own))
}

/// Whether a text is one of these names.
fn is_among(names: &[Text], text: &[u8]) -> bool
    ensures { result ≡ list_any (bytes_eq text.now) names.now }
{
    names.iter().any(|name| text == name.bytes())
}
