ghost use Rattle.hub_core_tests.specs.Examples.{MistakesAreRefused, TwoPathsOverTwoGroups};

use hub_core::core_law;

/// Two paths over two groups, and three destinations of which one never joins.
pub fn two_paths_over_two_groups()
    ensures { TwoPathsOverTwoGroups }
{
    core_law();
}

/// Every leaver frees, a larger buffer is taken than the smallest that fits, the newest session is joined first, a cell is
/// put over one unread: each leaves all as it is.
pub fn mistakes_are_refused()
    ensures { MistakesAreRefused }
{}
