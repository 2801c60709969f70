// Document 01's starred cases as one table over the rules, the enquiry and the job file: the table is in specs/, its one
// lemma in proofs/, and there is no code.

#![tactic(auto)]
