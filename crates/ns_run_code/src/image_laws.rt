//! Laws of images. Each function does nothing but name the laws that it rests on, and its contract is the law.

ghost use Rattle.ns_run_code.specs.ImageLaws.{BuiltIsRead, BuiltRunsAsMeant};

/// What was built is the image of the program's code, which is read from it again.
pub fn what_was_built_is_read()
    ensures { BuiltIsRead }
{
    ns_image::laws::written_code_is_read();
}

/// The run of an image that was built of a program is the run that the program's source means: so
/// `exec` of what `build` stored is `run`.
pub fn what_was_built_runs_as_meant()
    ensures { BuiltRunsAsMeant }
{
    what_was_built_is_read();
    ns_link::laws::whole_programs_begin();
    crate::laws::code_runs_as_meant();
}
