//! A send by the names of its class, its selector and its file.

ghost use Rattle.std.specs.Prelude.{◌≡◌, IfOk};
ghost use Rattle.ns_run_trace.specs.Trace as spec;

use ns_base::no_memory::NoMemory;
use ns_base::text::Text;
use ns_code::program::CodeProgram;
use ns_json::saying::Site;
use ns_machine_report::output::put_class;
use ns_moves::site::Site as SendSite;
use ns_run_told::end::told_place;
use std::alloc::Global;

/// A send by its names.
pub fn told(alloc: Global, code: &CodeProgram, site: SendSite) -> Result<Site, NoMemory>
    ensures { IfOk result (λ told. told ≡ spec.told code.now site) }
{
    let mut class = Vec::new(alloc);
    put_class(&mut class, code, site.class)?;
    let selector = Text::of(alloc, code.selector_text(site.sel))?;
    let place = told_place(alloc, code.files.as_slice(), site.place)?;
    Ok(Site {
        class: Text::from_vec(class),
        selector,
        place,
    })
}
