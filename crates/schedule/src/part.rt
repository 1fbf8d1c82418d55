// What one rank does in a collective.
ghost use Rattle.std.specs.Prelude.{◌≡◌, List, length};
ghost use Rattle.programme.specs.declared.Action.{Action};
ghost use Rattle.std.specs.List.{slice_get};

use programme::Action;

pub(crate) trait Part {
    // Its sends and takes, in order.
    ghost actions: { Self → List Action };

    // The action at that index, counted from 0; None past the last one.
    fn action(self, index: usize) -> Option<Action>
        ensures { result ≡ slice_get (actions self) index };

    // How many actions there are.
    fn length(self) -> usize
        ensures { result ≡ length (actions self) };
}
