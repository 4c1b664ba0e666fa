//! The script beside a source: with comments, and with the names of classes in place of numbers.
ghost use Rattle.std.specs.Prelude.{◌≡◌, IfOk, length, map};
ghost use Rattle.aom_source_commands.specs.Scripts.{HasScriptNames, StandsForScript, number_in};

use aom_asm::assemble;
use aom_commands::Fault;
use aom_diagnostics::class_names;
use aom_image::{ClassDecl, ClassKind, Provider};
use aom_source_scripts::{ScriptName, plain_script};
use std::alloc::{AllocError, Global};

/// The script that a script beside a source stands for. The source's text is given, with the names of its classes: that of an active class of a native stands
/// for the native's number, each other one for the number of its class.
pub fn script_of_source(alloc: Global, text: &[u8], script: &[u8]) -> Result<Vec<u8>, Fault>
    ensures { IfOk result (λ plain. StandsForScript text.now script.now plain.items) }
{
    let image = assemble(alloc, text)?;
    let names = class_names(alloc, text)?;
    let named = script_names(alloc, &names, image.classes().as_slice())?;
    Ok(plain_script(alloc, &named, script)?)
}

/// The names of classes, each with the number that a script writes.
fn script_names<'a>(
    alloc: Global,
    names: &[&'a [u8]],
    classes: &[ClassDecl],
) -> Result<Vec<ScriptName<'a>>, AllocError>
    ensures { IfOk result (λ named. HasScriptNames named.items (map (λ n. n.now) names.now) classes.now) }
{
    let mut named: Vec<ScriptName<'a>> = Vec::new(alloc);
    for name in names {
        let number = number_in(classes, named.len());
        named.push(ScriptName {
            name: *name,
            number,
        })?;
    }
    Ok(named)
}

/// The number of a class, or that of the native that completes the requests of its objects.
fn number_in(classes: &[ClassDecl], class: usize) -> usize
    ensures { result ≡ number_in classes.now class }
{
    if let Some(declared) = classes.get(class) {
        if let ClassKind::Active {
            provider: Provider::Native(native),
        } = declared.kind
        {
            return usize::from(native.number());
        }
    }
    class
}
