// Laws of packages: contracts of functions that do nothing.
ghost use Rattle.qmqp_server.specs.Faults.{CutsExcludePackages, FaultsExcludePackages};
ghost use Rattle.qmqp_server.specs.Package.{PackagesAreExact, PackagesHaveEnvelopes};

/// A text begins with at most one package, of one message, one sender and one list of recipients.
pub fn packages_are_exact()
    ensures { PackagesAreExact }
{}

/// Of a package within the limit, of which each address has at most 1002 bytes and no NUL, an injector gets a message within its
/// limit and an envelope: such a one may be queued.
pub fn packages_have_envelopes()
    ensures { PackagesHaveEnvelopes }
{}

/// Bytes that are malformed begin no package that is within the limit.
pub fn faults_exclude_packages()
    ensures { FaultsExcludePackages }
{}

/// Bytes that end within a package hold no whole one.
pub fn cuts_exclude_packages()
    ensures { CutsExcludePackages }
{}
