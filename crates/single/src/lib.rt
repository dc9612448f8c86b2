// That each contract of each public function allows a single answer, in one theorem. There is no code here.
#![tactic(auto)]
