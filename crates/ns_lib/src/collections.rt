//! The library's source.

ghost use Rattle.std.specs.Prelude.{◌≡◌};
ghost use Rattle.ns_lib.specs.Collections.{collections as collections_lem};

/// The text.
const SOURCE: &str = "class Collections usingKernel: k = (| kernel = k. |) (
public class List = (| private items ::= kernel Array new: 4. private count ::= 0. |) (
public add: x = (
count = items size ifTrue: [grow].
count:: count + 1.
items at: count put: x.
^x)
public at: i = (
i > count ifTrue: [^nil].
^items at: i)
public at: i put: x = (
i > count ifTrue: [^nil].
^items at: i put: x)
public size = (^count)
public do: b = (1 to: count do: [:i | b value: (items at: i)])
private grow = (
| more |
more:: kernel Array new: count * 2.
1 to: count do: [:i | more at: i put: (items at: i)].
items:: more)
)
public class Dictionary = (| private keys = List new. private values = List new. |) (
public at: k put: v = (
1 to: keys size do: [:i | (keys at: i) = k ifTrue: [^values at: i put: v]].
keys add: k.
^values add: v)
public at: k = (
1 to: keys size do: [:i | (keys at: i) = k ifTrue: [^values at: i]].
^nil)
public size = (^keys size)
)
)
";

/// Gives the source of the library's one class Collections, whose classes are List and Dictionary (this profile).
pub fn collections() -> &'static [u8]
    ensures { result.now ≡ collections_lem }
{
    SOURCE.as_bytes()
}
