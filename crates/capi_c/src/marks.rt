// The layout, told by the library itself: crate `capi_answers` has the record.
ghost use Rattle.std.specs.Prelude.{◌≡◌};
ghost use Rattle.capi_answers.specs.Marks.{marks};

use state::Board;

// A record that marks its fields. It is not whole.
#[unsafe(no_mangle)]
pub extern "C" fn fm1_marks() -> Board
    ensures { result ≡ marks }
{
    capi::marks::fm1_marks()
}
