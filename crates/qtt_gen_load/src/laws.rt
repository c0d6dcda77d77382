//! Laws of the loading of generated modules. Each function does nothing: its contract is the law.

ghost use Rattle.qtt_gen_load.specs.Laws.{GeneratedAreLoaded, GeneratedAreThere};

use qtt_gen_laws::generated_texts_are_read;

/// Loading the Main of generated modules never lacks a module.
pub fn generated_modules_are_there()
    ensures { GeneratedAreThere }
{
    generated_texts_are_read();
}

/// Loading the Main of generated modules gives modules.
pub fn generated_modules_are_loaded()
    ensures { GeneratedAreLoaded }
{
    generated_texts_are_read();
}
