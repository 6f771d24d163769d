// The test for 9.
ghost use Rattle.std.specs.Prelude.{◌≡◌, true};
ghost use Rattle.rules.specs.Limits.{box};
ghost use Rattle.rules.specs.Sound.{RegistryColumnsSound};
ghost use Rattle.rules.specs.SoundTest.{registry_test};
ghost use Rattle.registry.specs.Columns.{columns_of};

use crate::PublicationRegistry;

// Whether a registry is sound. No clause reads the domain.
pub fn is_sound(registry: PublicationRegistry) -> bool
    ensures test { result ≡ registry_test box (columns_of registry) }
    ensures sound { result ≡ true → RegistryColumnsSound box (columns_of registry) }
{
    columns::is_sound(
        registry.publications,
        registry.count,
        registry.leases,
        registry.active,
        registry.counter,
    )
}
